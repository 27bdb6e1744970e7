//! What bytes are written to.

ghost use Rattle.std.specs.Prelude.{ℕ, ◌<◌, ◌≤◌, Bool, List, length, IfOk, IsTrue};
ghost use Rattle.outer_ports.specs.Port.{failed, Appends, HasCause, Tells};

use crate::failed::Failed;

/// A sink of bytes.
///
/// Its contracts speak of whether it tells its bytes, of the bytes that were written where it tells
/// them, and of a count of faults that never falls.
pub trait Sink {
    ghost tells: { Self → Bool };
    // Read these only where the sink tells them.
    ghost written: { Self → List ℕ };

    ghost faults: { Self → ℕ };

    /// Takes bytes from the front of `piece`, and answers how many: at most the length of `piece`,
    /// and at least 1 for a nonempty `piece`.
    ///
    /// [`Failed`] comes only where the count of faults rose in this call, or stands at its last
    /// value; nothing is written then. An answer that is no fault leaves the count as it was.
    fn write(&mut self, piece: &[u8]) -> Result<usize, Failed>
        ensures within { IfOk result (λ n. n ≤ length piece.now) }
        ensures some { 0 < length piece.now → IfOk result (λ n. 0 < n) }
        ensures told { Tells (tells self.old) (tells self.new) }
        ensures appended { IsTrue (tells self.new) →
            Appends (written self.old) (written self.new) piece.now result }
        ensures cause { HasCause failed (faults self.old) (faults self.new) result };
}
