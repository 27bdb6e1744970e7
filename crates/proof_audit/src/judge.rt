//! Files that are judged piece by piece.

ghost use Rattle.std.specs.Prelude.{◌≡◌, ℕ, ◌+◌, ◌<◌, ◌^◌, ◌++◌, [], Bool, true, false, List, length, Ok, IfOk, IsTrue, vec_len, if◌then◌else◌};
ghost use Rattle.outer_ports.specs.{Port.{HasCause, Tells}, Shelf.FilesStay};
ghost use Rattle.proof_audit.specs.Files.{file_verdict, short_and, SomePass};

use crate::fault::AuditFault;
use crate::verdict::FileVerdict;
use outer_ports::{OutOfMemory, ProofName, Shelf};
use std::alloc::Global;

/// The most bytes that one call of a shelf is asked for.
const PIECE: usize = 65536;

/// What takes the bytes of a text in pieces, in their order, and says whether they pass its test.
pub(crate) trait Judge {
    // Whether what is taken already and these bytes, as the last of the text, pass.
    ghost passes: { Self → List ℕ → Bool };

    // How many bytes were taken.
    ghost taken: { Self → ℕ };

    // More bytes may be taken.
    ghost is_reading: { Self → Type 0 };

    /// Takes a piece. `false` says that no text that begins so passes.
    fn take(&mut self, piece: &[u8]) -> Result<bool, OutOfMemory>
        requires reading { is_reading self.old }
        requires room { taken self.old + length piece.now < 2 ^ 64 }
        ensures reading { result ≡ Ok true → is_reading self.new }
        ensures taken { result ≡ Ok true → taken self.new ≡ taken self.old + length piece.now }
        ensures more { result ≡ Ok true → (more : List ℕ) → passes self.old (piece.now ++ more) ≡ passes self.new more }
        ensures over { result ≡ Ok false → (more : List ℕ) → passes self.old (piece.now ++ more) ≡ false };

    /// Whether the text passes, of which all bytes were taken.
    fn end(&mut self) -> Result<bool, OutOfMemory>
        requires reading { is_reading self.old }
        ensures { IfOk result (λ passed. passed ≡ passes self.old []) };
}

/// Judges a file, which passes where it has at most `limit` bytes and the judge says so. It is
/// asked for in pieces, and no more of it once more than `limit` bytes came. No file changes.
pub(crate) fn judge_file<H: Shelf, J: Judge>(
    alloc: Global,
    shelf: &mut H,
    name: ProofName,
    limit: u64,
    judge: &mut J,
) -> Result<FileVerdict, AuditFault>
    requires reading { J.is_reading judge.old }
    requires none { J.taken judge.old ≡ 0 }
    requires limit { limit < 2 ^ 63 }
    ensures told { Tells (H.tells shelf.old) (H.tells shelf.new) }
    ensures stay { IsTrue (H.tells shelf.new) → FilesStay (H.file shelf.old) (H.file shelf.new) }
    ensures exact { IsTrue (H.tells shelf.new) → IfOk result (λ verdict. verdict ≡ file_verdict (short_and limit (J.passes judge.old)) (H.file shelf.old name)) }
    ensures some { result ≡ Ok FileVerdict.Stands → SomePass (short_and limit (J.passes judge.old)) }
    ensures cause { HasCause AuditFault.ShelfFailed (H.faults shelf.old) (H.faults shelf.new) result }
{
    let mut buffer = buffer_of(alloc, PIECE)?;
    let mut place = 0u64;
    while place <= limit {
        let Some(count) = shelf.read_at(name, place, &mut buffer)? else {
            return Ok(FileVerdict::Missing);
        };
        if count == 0 {
            let passed = judge.end()?;
            return Ok(verdict_of(passed));
        }
        if !judge.take(&buffer[..count])? {
            return Ok(FileVerdict::Refused);
        }
        place += count as u64;
    }
    Ok(FileVerdict::Refused)
}

/// Room for so many bytes.
fn buffer_of(alloc: Global, length: usize) -> Result<Vec<u8>, OutOfMemory>
    ensures { IfOk result (λ buffer. vec_len buffer ≡ length) }
{
    vec![in alloc; 0u8; length]
}

fn verdict_of(passed: bool) -> FileVerdict
    ensures { result ≡ (if passed then FileVerdict.Stands else FileVerdict.Refused) }
{
    if passed {
        FileVerdict::Stands
    } else {
        FileVerdict::Refused
    }
}
