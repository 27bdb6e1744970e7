//! Why a reader of a text stopped.

ghost use Rattle.std.specs.Prelude.{◌≡◌};
ghost use Rattle.text_lines.specs.declared.stop.Stop.TheVariants.{Memory};

use std::alloc::{AllocError, AllocFailed};

/// Memory ran out, or a check failed.
#[derive(Debug, Drop)]
pub enum Stop<C> {
    Memory,
    Refused(C),
}

impl<C> From<AllocError> for Stop<C> {
    ghost from_gives = { λ _ e. e ≡ Memory };

    fn from(_e: AllocError) -> Stop<C> {
        Stop::Memory
    }
}

impl<T: Drop, C> From<AllocFailed<T>> for Stop<C> {
    ghost from_gives = { λ _ e. e ≡ Memory };

    fn from(_e: AllocFailed<T>) -> Stop<C> {
        Stop::Memory
    }
}
