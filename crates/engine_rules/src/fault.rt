//! Why a candidate could not be settled.

use ledger_rules::LedgerFault;
use outer_ports::ShelfFault;
use std::alloc::{AllocError, AllocFailed};

/// Why a candidate could not be settled.
#[derive(Clone, Copy, Debug, PartialEq, Eq)]
pub enum EngineFault {
    /// The store failed.
    ShelfFailed = 1,
    /// Memory ran out.
    OutOfMemory = 2,
}

impl From<AllocError> for EngineFault {
    ghost use Rattle.std.specs.Prelude.{◌≡◌};
    ghost use Rattle.engine_rules.specs.declared.fault.EngineFault.TheVariants.{OutOfMemory};

    ghost from_gives = { λ _ fault. fault ≡ OutOfMemory };

    fn from(_: AllocError) -> EngineFault {
        EngineFault::OutOfMemory
    }
}

impl<T: Drop> From<AllocFailed<T>> for EngineFault {
    ghost use Rattle.std.specs.Prelude.{◌≡◌};
    ghost use Rattle.engine_rules.specs.declared.fault.EngineFault.TheVariants.{OutOfMemory};

    ghost from_gives = { λ _ fault. fault ≡ OutOfMemory };

    fn from(_: AllocFailed<T>) -> EngineFault {
        EngineFault::OutOfMemory
    }
}

impl From<ShelfFault> for EngineFault {
    ghost use Rattle.std.specs.Prelude.{◌≡◌};
    ghost use Rattle.engine_rules.specs.Faults.{of_shelf};

    ghost from_gives = { λ fault result. result ≡ of_shelf fault };

    fn from(fault: ShelfFault) -> EngineFault {
        match fault {
            ShelfFault::Failed => EngineFault::ShelfFailed,
            ShelfFault::OutOfMemory => EngineFault::OutOfMemory,
        }
    }
}

impl From<LedgerFault> for EngineFault {
    ghost use Rattle.std.specs.Prelude.{◌≡◌};
    ghost use Rattle.engine_rules.specs.Faults.{of_ledger};

    ghost from_gives = { λ fault result. result ≡ of_ledger fault };

    fn from(fault: LedgerFault) -> EngineFault {
        match fault {
            LedgerFault::Failed => EngineFault::ShelfFailed,
            LedgerFault::OutOfMemory => EngineFault::OutOfMemory,
        }
    }
}
