//! Why a call of a shelf could not be done.

ghost use Rattle.std.specs.Prelude.{◌≡◌};

use crate::failed::Failed;
use std::alloc::{AllocError, AllocFailed};

/// Why a call of a shelf could not be done.
#[derive(Clone, Copy, Debug, PartialEq, Eq)]
pub enum ShelfFault {
    /// The outside failed.
    Failed,
    /// Memory ran out.
    OutOfMemory,
}

impl From<Failed> for ShelfFault {
    ghost use Rattle.outer_ports.specs.declared.shelf_fault.ShelfFault.TheVariants.{Failed};

    ghost from_gives = { λ _ fault. fault ≡ Failed };

    fn from(_: Failed) -> ShelfFault {
        ShelfFault::Failed
    }
}

impl From<AllocError> for ShelfFault {
    ghost use Rattle.outer_ports.specs.declared.shelf_fault.ShelfFault.TheVariants.{OutOfMemory};

    ghost from_gives = { λ _ fault. fault ≡ OutOfMemory };

    fn from(_: AllocError) -> ShelfFault {
        ShelfFault::OutOfMemory
    }
}

impl<T: Drop> From<AllocFailed<T>> for ShelfFault {
    ghost use Rattle.outer_ports.specs.declared.shelf_fault.ShelfFault.TheVariants.{OutOfMemory};

    ghost from_gives = { λ _ fault. fault ≡ OutOfMemory };

    fn from(_: AllocFailed<T>) -> ShelfFault {
        ShelfFault::OutOfMemory
    }
}
