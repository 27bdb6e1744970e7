//! Why there is no answer.

use engine_rules::EngineFault;
use frontier_audit::AuditFault;
use std::alloc::AllocError;

/// Why there is no answer.
#[derive(Drop)]
pub enum Halt {
    /// Memory ran out.
    Memory,
    /// The source failed.
    Source,
    /// The shelf failed.
    Shelf,
}

impl From<AllocError> for Halt {
    ghost use Rattle.std.specs.Prelude.{◌≡◌};
    ghost use Rattle.run_rules.specs.declared.halt.Halt.TheVariants.{Memory};

    ghost from_gives = { λ _ halt. halt ≡ Memory };

    fn from(_e: AllocError) -> Halt {
        Halt::Memory
    }
}

impl From<EngineFault> for Halt {
    ghost use Rattle.std.specs.Prelude.{◌≡◌};
    ghost use Rattle.run_rules.specs.Halts.{halt_of};

    ghost from_gives = { λ fault halt. halt ≡ halt_of fault };

    fn from(fault: EngineFault) -> Halt {
        match fault {
            EngineFault::ShelfFailed => Halt::Shelf,
            EngineFault::OutOfMemory => Halt::Memory,
        }
    }
}

impl From<AuditFault> for Halt {
    ghost use Rattle.std.specs.Prelude.{◌≡◌};
    ghost use Rattle.run_rules.specs.Halts.{halt_of_audit};

    ghost from_gives = { λ fault halt. halt ≡ halt_of_audit fault };

    fn from(fault: AuditFault) -> Halt {
        match fault {
            AuditFault::ShelfFailed => Halt::Shelf,
            AuditFault::OutOfMemory => Halt::Memory,
        }
    }
}
