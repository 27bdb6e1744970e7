//! Calls about the numbers of the standard streams.

ghost use Rattle.std.specs.Prelude.{◌≡◌, Bool, Some, IsSome, IsTrue};
ghost use Rattle.outer_ports.specs.Port.{Tells};
ghost use Rattle.system_calls.specs.Numbers.{first_free, StayTaken};

/// A standard stream. Its number is its place in this list, from 0.
#[derive(Clone, Copy, Debug, PartialEq, Eq)]
pub enum Stream {
    Input,
    Output,
    Errors,
}

/// Single calls about the numbers of the standard streams.
///
/// Its contracts speak of whether it tells which of the numbers are taken, and of these.
pub trait NumberCalls {
    ghost use Rattle.system_calls.specs.declared.number_calls.Stream.{Stream};

    /// What keeps a number taken while it stays open.
    type Holder: Drop;

    ghost tells: { Self → Bool };
    // Read it only where the calls tell.
    ghost taken: { Self → Stream → Bool };

    /// Whether the stream is open. If so, its number is taken.
    fn is_open(&mut self, stream: Stream) -> bool
        ensures told { Tells (tells self.old) (tells self.new) }
        ensures open { IsTrue (tells self.new) → IsTrue result → IsTrue (taken self.old stream) }
        ensures stay { IsTrue (tells self.new) → StayTaken (taken self.old) (taken self.new) };

    /// Opens what can be neither read nor written, which takes the first number that is free.
    fn take_number(&mut self) -> Option<Self::Holder>
        ensures told { Tells (tells self.old) (tells self.new) }
        ensures took { IsTrue (tells self.new) → IsSome result → (stream : Stream) →
            first_free (taken self.old) ≡ Some stream → IsTrue (taken self.new stream) }
        ensures stay { IsTrue (tells self.new) → StayTaken (taken self.old) (taken self.new) };
}
