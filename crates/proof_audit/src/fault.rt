//! Why a file was not judged.

ghost use Rattle.std.specs.Prelude.{◌≡◌};
ghost use Rattle.proof_audit.specs.Faults.{fault_number};

use outer_ports::ShelfFault;
use std::alloc::AllocError;

/// Why a report, or a file beside it, was not judged.
#[derive(Clone, Copy, Debug, PartialEq, Eq)]
pub enum AuditFault {
    /// The shelf had a fault.
    ShelfFailed,
    /// Memory ran out.
    OutOfMemory,
}

impl AuditFault {
    /// The number of the fault, from 1 to 2 in the order of the variants.
    pub fn number(self) -> u32
        ensures { result ≡ fault_number self }
    {
        match self {
            AuditFault::ShelfFailed => 1,
            AuditFault::OutOfMemory => 2,
        }
    }
}

impl From<AllocError> for AuditFault {
    ghost use Rattle.proof_audit.specs.declared.fault.AuditFault.TheVariants.{OutOfMemory};

    ghost from_gives = { λ _ fault. fault ≡ OutOfMemory };

    fn from(_: AllocError) -> AuditFault {
        AuditFault::OutOfMemory
    }
}

impl From<ShelfFault> for AuditFault {
    ghost use Rattle.proof_audit.specs.Faults.{fault_of};

    ghost from_gives = { λ fault result. result ≡ fault_of fault };

    fn from(fault: ShelfFault) -> AuditFault {
        match fault {
            ShelfFault::Failed => AuditFault::ShelfFailed,
            ShelfFault::OutOfMemory => AuditFault::OutOfMemory,
        }
    }
}
