//! Why the reading of a report stopped.

ghost use Rattle.std.specs.Prelude.{◌≡◌};
ghost use Rattle.frontier_report.specs.declared.report_stop.ReportStop.TheVariants.{Memory, Refused};

use report_form::ReportFault;
use std::alloc::{AllocError, AllocFailed};

/// Memory ran out, or a check failed.
#[derive(Debug, Drop)]
pub enum ReportStop {
    Memory,
    Refused(ReportFault),
}

impl From<AllocError> for ReportStop {
    ghost from_gives = { λ _ e. e ≡ Memory };

    fn from(_e: AllocError) -> ReportStop {
        ReportStop::Memory
    }
}

impl<T: Drop> From<AllocFailed<T>> for ReportStop {
    ghost from_gives = { λ _ e. e ≡ Memory };

    fn from(_e: AllocFailed<T>) -> ReportStop {
        ReportStop::Memory
    }
}

impl From<ReportFault> for ReportStop {
    ghost from_gives = { λ fault e. e ≡ Refused fault };

    fn from(fault: ReportFault) -> ReportStop {
        ReportStop::Refused(fault)
    }
}
