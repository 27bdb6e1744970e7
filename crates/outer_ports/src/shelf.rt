//! Where proof files are kept.

ghost use Rattle.std.specs.Prelude.{ℕ, ◌<◌, ◌≤◌, Bool, length, IfOk, IfSome, IsTrue};
ghost use Rattle.outer_ports.specs.{Files.Files, Port.{HasCause, Tells}, Shelf.{AppendsTo, Begins, FilesStay, ReadsAt}};

use crate::proof_name::ProofName;
use crate::shelf_fault::ShelfFault;

/// A shelf of proof files.
///
/// Its contracts speak of whether it tells its files, of the bytes of each file where it tells
/// them, and of a count of faults that never falls. [`ShelfFault::Failed`] of each call comes only
/// where the count rose in it, or stands at its last value; each other answer leaves the count as
/// it was.
pub trait Shelf {
    ghost tells: { Self → Bool };
    // Read these only where the shelf tells them.
    ghost file: { Self → Files };

    ghost faults: { Self → ℕ };

    /// Makes the file, or empties it, and changes no other. After a fault every file is as before.
    fn begin(&mut self, name: ProofName) -> Result<(), ShelfFault>
        ensures told { Tells (tells self.old) (tells self.new) }
        ensures begun { IsTrue (tells self.new) → Begins (file self.old) (file self.new) name result }
        ensures cause { HasCause ShelfFault.Failed (faults self.old) (faults self.new) result };

    /// Appends bytes from the front of `piece` to the file, which is made where no file has the
    /// name, and answers how many: at most the length of `piece`, and at least 1 for a nonempty
    /// `piece`. Changes no other file. After a fault every file is as before.
    fn append(&mut self, name: ProofName, piece: &[u8]) -> Result<usize, ShelfFault>
        ensures within { IfOk result (λ n. n ≤ length piece.now) }
        ensures some { 0 < length piece.now → IfOk result (λ n. 0 < n) }
        ensures told { Tells (tells self.old) (tells self.new) }
        ensures appended { IsTrue (tells self.new) →
            AppendsTo (file self.old) (file self.new) name piece.now result }
        ensures cause { HasCause ShelfFault.Failed (faults self.old) (faults self.new) result };

    /// Copies the bytes from `place` on into the front of `buf`, and answers how many: at most the
    /// length of `buf`, and 0 for a nonempty `buf` exactly at or past the end of the file. `None`
    /// comes exactly where no file has the name. Changes no file.
    fn read_at(
        &mut self,
        name: ProofName,
        place: u64,
        buf: &mut [u8],
    ) -> Result<Option<usize>, ShelfFault>
        ensures within { IfOk result (λ count. IfSome count (λ n. n ≤ length buf.new)) }
        ensures told { Tells (tells self.old) (tells self.new) }
        ensures stay { IsTrue (tells self.new) → FilesStay (file self.old) (file self.new) }
        ensures read { IsTrue (tells self.new) → ReadsAt (file self.old) name place buf.new result }
        ensures cause { HasCause ShelfFault.Failed (faults self.old) (faults self.new) result };
}
