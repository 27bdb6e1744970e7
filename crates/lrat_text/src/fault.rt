ghost use Rattle.std.specs.Prelude.{◌≡◌};
ghost use Rattle.lrat_text.specs.declared.fault.LratTextFault.TheVariants.{OutOfMemory};

use std::alloc::AllocError;

/// Why a text is no list of proof lines. A place is the offset of a byte from the first byte that
/// was fed.
#[derive(Clone, Copy, Debug, PartialEq, Eq)]
pub enum LratTextFault {
    /// The token that begins here can't stand in its place, or the line that this line feed ends
    /// lacks its closing zero.
    BadToken { place: u64 },
    /// The number that begins here is too large.
    NumberRange { place: u64 },
    /// The last line lacks its line feed and its closing zero.
    Truncated,
    /// Memory ran out.
    OutOfMemory,
}

impl From<AllocError> for LratTextFault {
    ghost from_gives = { λ _ fault. fault ≡ OutOfMemory };

    fn from(_error: AllocError) -> LratTextFault {
        LratTextFault::OutOfMemory
    }
}
