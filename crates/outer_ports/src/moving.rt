//! Bytes that are moved to and from an open file.

ghost use Rattle.std.specs.{Prelude.{◌≡◌, ◌≢◌, ◌<◌, ◌≤◌, ◌^◌, ⊤, None, length, take, IfErr, IfOk, IsOk, IsTrue, OnErr, OnOk}, IoError.error_kind};
ghost use Rattle.outer_ports.specs.{Disks.Writes, Port.Tells, Shelf.HoldsBytes, inner.Keeping.Spares};

use crate::failed::Failed;
use crate::file_calls::FileCalls;
use crate::proof_name::ProofName;
use std::io;
use std::io::ErrorKind;

// Appends bytes from the front of the piece, by one write, which is made again while it is
// interrupted.
pub(crate) fn append_some<C: FileCalls>(
    calls: &mut C,
    file: &C::File,
    piece: &[u8],
) -> io::Result<usize>
    ensures within { IfOk result (λ n. n ≤ length piece.now) }
    ensures again { IfErr result (λ error. error_kind error ≢ ErrorKind.Interrupted) }
    ensures some { 0 < length piece.now → IfOk result (λ n. 0 < n) }
    ensures told { Tells (C.tells calls.old) (C.tells calls.new) }
    ensures written { IsTrue (C.tells calls.new) →
        IfOk result (λ n. Writes (C.number file.now) (take n piece.now) (C.disk calls.old) (C.disk calls.new)) }
    ensures fault { IsTrue (C.tells calls.new) → OnErr result (Spares (λ _. ⊤) (C.disk calls.old) (C.disk calls.new)) }
    ensures counted { IsTrue (C.tells calls.new) → OnOk result (C.failed calls.new ≡ C.failed calls.old) }
{
    for _ in 0..u64::MAX {
        match calls.write(file, piece) {
            Ok(count) if count > 0 || piece.is_empty() => return Ok(count),
            Ok(_) => return Err(io::Error::from(ErrorKind::WriteZero)),
            Err(error) if error.kind() == ErrorKind::Interrupted => {}
            Err(error) => return Err(error),
        }
    }
    Err(io::Error::from(ErrorKind::TimedOut))
}

// Copies bytes from the place on.
pub(crate) fn read_some<C: FileCalls>(
    calls: &mut C,
    file: &C::File,
    place: u64,
    buf: &mut [u8],
) -> Result<usize, Failed>
    requires place { place < 2 ^ 63 }
    ensures within { IfOk result (λ n. n ≤ length buf.new) }
    ensures told { Tells (C.tells calls.old) (C.tells calls.new) }
    ensures read { IsTrue (C.tells calls.new) → IfOk result (HoldsBytes ((C.disk calls.old).bytes (C.number file.now)) place buf.new) }
    ensures stays { IsTrue (C.tells calls.new) → C.disk calls.new ≡ C.disk calls.old }
    ensures counted { IsTrue (C.tells calls.new) → OnOk result (C.failed calls.new ≡ C.failed calls.old) }
{
    read_again(calls, file, place, buf).map_err(|_| Failed)
}

// Copies bytes from the place on, by one reading, which is made again while it is interrupted.
fn read_again<C: FileCalls>(
    calls: &mut C,
    file: &C::File,
    place: u64,
    buf: &mut [u8],
) -> io::Result<usize>
    requires place { place < 2 ^ 63 }
    ensures again { IfErr result (λ error. error_kind error ≢ ErrorKind.Interrupted) }
    ensures within { IfOk result (λ n. n ≤ length buf.new) }
    ensures told { Tells (C.tells calls.old) (C.tells calls.new) }
    ensures read { IsTrue (C.tells calls.new) → IfOk result (HoldsBytes ((C.disk calls.old).bytes (C.number file.now)) place buf.new) }
    ensures stays { IsTrue (C.tells calls.new) → C.disk calls.new ≡ C.disk calls.old }
    ensures counted { IsTrue (C.tells calls.new) → OnOk result (C.failed calls.new ≡ C.failed calls.old) }
{
    for _ in 0..u64::MAX {
        match calls.read_at(file, place, buf) {
            Ok(count) => return Ok(count),
            Err(error) if error.kind() == ErrorKind::Interrupted => {}
            Err(error) => return Err(error),
        }
    }
    Err(io::Error::from(ErrorKind::TimedOut))
}

// Closes the file, if there is one.
pub(crate) fn close_held<C: FileCalls>(
    calls: &mut C,
    held: Option<(ProofName, C::File)>,
) -> Result<(), Failed>
    ensures told { Tells (C.tells calls.old) (C.tells calls.new) }
    ensures stays { IsTrue (C.tells calls.new) → C.disk calls.new ≡ C.disk calls.old }
    ensures none { held ≡ None → IsOk result }
    ensures counted { IsTrue (C.tells calls.new) → OnOk result (C.failed calls.new ≡ C.failed calls.old) }
{
    match held {
        None => Ok(()),
        Some((_, file)) => calls.close(file).map_err(|_| Failed),
    }
}
