//! What bytes are read from.

ghost use Rattle.std.specs.Prelude.{ℕ, ◌≤◌, Bool, List, length, IfOk, IsTrue};
ghost use Rattle.outer_ports.specs.Port.{failed, HasCause, Takes, Tells};

use crate::failed::Failed;

/// A source of bytes.
///
/// Its contracts speak of whether it tells its bytes, of the bytes that are left where it tells
/// them, and of a count of faults that never falls.
pub trait Source {
    ghost tells: { Self → Bool };
    // Read these only where the source tells them.
    ghost left: { Self → List ℕ };

    ghost faults: { Self → ℕ };

    /// Takes bytes into the front of `buf`, and answers how many: at most the length of `buf`, and
    /// 0 for a nonempty `buf` only at the end.
    ///
    /// [`Failed`] comes only where the count of faults rose in this call, or stands at its last
    /// value; nothing is taken then. An answer that is no fault leaves the count as it was.
    fn read(&mut self, buf: &mut [u8]) -> Result<usize, Failed>
        ensures within { IfOk result (λ n. n ≤ length buf.new) }
        ensures told { Tells (tells self.old) (tells self.new) }
        ensures taken { IsTrue (tells self.new) →
            Takes (left self.old) (left self.new) buf.new result }
        ensures cause { HasCause failed (faults self.old) (faults self.new) result };
}
