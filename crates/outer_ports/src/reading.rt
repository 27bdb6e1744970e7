//! Reading to the end.

ghost use Rattle.std.specs.Prelude.{◌≡◌, ℕ, ◌+◌, ◌<◌, ◌≤◌, [], ◌++◌, length, drop, IfOk, IsTrue, OnErr, OnOk, vec_capacity, vec_len};
ghost use Rattle.outer_ports.specs.Port.{failed, HasCause, Tells};

use crate::failed::Failed;
use crate::read_fault::ReadFault;
use crate::source::Source;
use std::alloc::Global;

const PIECE: usize = 4096;

/// Reads to the end, and gives the bytes that came: at most `limit`, which is at most 1,048,576.
///
/// The memory for them is taken before the first read, so [`ReadFault::OutOfMemory`] leaves the
/// source as it was. [`ReadFault::Failed`] comes only where the source's count of faults rose in
/// this call, or stands at its last value, and at most `limit` bytes are taken then; each other
/// answer leaves the count as it was. [`ReadFault::TooLong`] comes exactly where more than `limit`
/// bytes came, of which `limit` and one more are taken.
pub fn read_all<I: Source>(
    alloc: Global,
    source: &mut I,
    limit: usize,
) -> Result<Vec<u8>, ReadFault>
    requires { limit ≤ 1048576 }
    ensures told { Tells (I.tells source.old) (I.tells source.new) }
    ensures cause { HasCause ReadFault.Failed (I.faults source.old) (I.faults source.new) result }
    ensures memory { result ≡ Err ReadFault.OutOfMemory → source.new ≡ source.old }

    // Where all bytes came, there are at most `limit`.
    ensures within { IfOk result (λ bytes. length bytes.items ≤ limit) }
    ensures whole { IsTrue (I.tells source.new) →
        IfOk result (λ bytes. bytes.items ≡ I.left source.old) }
    ensures end { IsTrue (I.tells source.new) →
        OnOk result (I.left source.new ≡ []) }

    // Where more came, one more than `limit` are taken.
    ensures too_long { IsTrue (I.tells source.new) →
        result ≡ Err ReadFault.TooLong → limit < length (I.left source.old) }
    ensures one_more { IsTrue (I.tells source.new) →
        result ≡ Err ReadFault.TooLong → I.left source.new ≡ drop (limit + 1) (I.left source.old) }

    // After an error, what is left is the end of what was left, and after a fault the bytes that
    // came before it are taken.
    ensures failed { IsTrue (I.tells source.new) → result ≡ Err ReadFault.Failed →
        (k : ℕ) × (k ≤ limit) × (I.left source.new ≡ drop k (I.left source.old)) }
    ensures rest { IsTrue (I.tells source.new) →
        OnErr result ((k : ℕ) × (k ≤ limit + 1) × (I.left source.new ≡ drop k (I.left source.old))) }
{
    let mut bytes = Vec::with_capacity(alloc, limit + 1)?;
    let mut buffer = [0; PIECE];
    while bytes.len() <= limit {
        let most = PIECE.min(limit + 1 - bytes.len());
        if read_piece(source, &mut buffer[..most], &mut bytes)? == 0 {
            return Ok(bytes);
        }
    }
    Err(ReadFault::TooLong)
}

// Moves one piece, of at most the length of `buffer`, behind `bytes`, which has room for it.
fn read_piece<I: Source>(
    source: &mut I,
    buffer: &mut [u8],
    bytes: &mut Vec<u8>,
) -> Result<usize, Failed>
    requires some { 0 < length buffer.old }
    requires room { vec_len bytes.old + length buffer.old ≤ vec_capacity bytes.old }
    ensures told { Tells (I.tells source.old) (I.tells source.new) }
    ensures cause { HasCause failed (I.faults source.old) (I.faults source.new) result }
    ensures capacity { vec_capacity bytes.old ≤ vec_capacity bytes.new }
    ensures count { IfOk result (λ n. (n ≤ length buffer.old) × (vec_len bytes.new ≡ vec_len bytes.old + n)) }
    ensures moved { IsTrue (I.tells source.new) →
        OnOk result (bytes.new.items ++ I.left source.new ≡ bytes.old.items ++ I.left source.old) }
    ensures end { IsTrue (I.tells source.new) → IfOk result (λ n. n ≡ 0 → I.left source.old ≡ []) }
    ensures err { OnErr result (bytes.new.items ≡ bytes.old.items) }
    ensures stays { IsTrue (I.tells source.new) → OnErr result (I.left source.new ≡ I.left source.old) }
{
    let count = source.read(buffer)?;
    bytes.extend_from_slice(&buffer[..count]).unwrap();
    Ok(count)
}
