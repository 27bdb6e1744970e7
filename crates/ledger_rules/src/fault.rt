//! Why a ledger could not take a line.

use outer_ports::ShelfFault;
use std::alloc::{AllocError, AllocFailed};

/// Why a ledger could not take a line.
#[derive(Clone, Copy, Debug, PartialEq, Eq)]
pub enum LedgerFault {
    /// The store failed.
    Failed = 1,
    /// Memory ran out.
    OutOfMemory = 2,
}

impl From<AllocError> for LedgerFault {
    ghost use Rattle.std.specs.Prelude.{◌≡◌};
    ghost use Rattle.ledger_rules.specs.declared.fault.LedgerFault.TheVariants.{OutOfMemory};

    ghost from_gives = { λ _ fault. fault ≡ OutOfMemory };

    fn from(_: AllocError) -> LedgerFault {
        LedgerFault::OutOfMemory
    }
}

impl<T: Drop> From<AllocFailed<T>> for LedgerFault {
    ghost use Rattle.std.specs.Prelude.{◌≡◌};
    ghost use Rattle.ledger_rules.specs.declared.fault.LedgerFault.TheVariants.{OutOfMemory};

    ghost from_gives = { λ _ fault. fault ≡ OutOfMemory };

    fn from(_: AllocFailed<T>) -> LedgerFault {
        LedgerFault::OutOfMemory
    }
}

impl From<ShelfFault> for LedgerFault {
    ghost use Rattle.std.specs.Prelude.{◌≡◌};
    ghost use Rattle.ledger_rules.specs.Faults.{fault_of};

    ghost from_gives = { λ fault result. result ≡ fault_of fault };

    fn from(fault: ShelfFault) -> LedgerFault {
        match fault {
            ShelfFault::Failed => LedgerFault::Failed,
            ShelfFault::OutOfMemory => LedgerFault::OutOfMemory,
        }
    }
}
