//! Why a search could not end.

use cnf_formula::OutOfMemory;
use ledger_rules::LedgerFault;

/// The ledger failed, or memory ran out.
#[derive(Clone, Copy, Debug, PartialEq, Eq)]
pub enum SolveFault {
    /// The ledger's store failed.
    LedgerFailed = 1,
    /// Memory ran out.
    OutOfMemory = 2,
}

impl From<LedgerFault> for SolveFault {
    ghost use Rattle.std.specs.Prelude.{◌≡◌};
    ghost use Rattle.sat_core.specs.Faults.{fault_of};

    ghost from_gives = { λ fault result. result ≡ fault_of fault };

    fn from(fault: LedgerFault) -> SolveFault {
        match fault {
            LedgerFault::Failed => SolveFault::LedgerFailed,
            LedgerFault::OutOfMemory => SolveFault::OutOfMemory,
        }
    }
}

impl From<OutOfMemory> for SolveFault {
    ghost use Rattle.std.specs.Prelude.{◌≡◌};
    ghost use Rattle.sat_core.specs.declared.fault.SolveFault.TheVariants.{OutOfMemory as NoMemory};

    ghost from_gives = { λ fault result. result ≡ NoMemory };

    fn from(fault: OutOfMemory) -> SolveFault {
        SolveFault::OutOfMemory
    }
}
