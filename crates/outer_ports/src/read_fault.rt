//! Why a reading stopped.

ghost use Rattle.std.specs.Prelude.{◌≡◌};

use crate::failed::Failed;
use std::alloc::AllocError;

/// Why a source was not read to its end.
#[derive(Clone, Copy, Debug, PartialEq, Eq)]
pub enum ReadFault {
    /// The source failed.
    Failed,
    /// More bytes came than the limit.
    TooLong,
    /// Memory ran out.
    OutOfMemory,
}

impl From<Failed> for ReadFault {
    ghost use Rattle.outer_ports.specs.declared.read_fault.ReadFault.TheVariants.{Failed};

    ghost from_gives = { λ _ fault. fault ≡ Failed };

    fn from(_: Failed) -> ReadFault {
        ReadFault::Failed
    }
}

impl From<AllocError> for ReadFault {
    ghost use Rattle.outer_ports.specs.declared.read_fault.ReadFault.TheVariants.{OutOfMemory};

    ghost from_gives = { λ _ fault. fault ≡ OutOfMemory };

    fn from(_: AllocError) -> ReadFault {
        ReadFault::OutOfMemory
    }
}
