//! What a report refutes.

ghost use Rattle.std.specs.Prelude.{◌≡◌, IfOk};
ghost use Rattle.run_rules.specs.Degraded.{old_refuted};

use crate::OutOfMemory;
use candidate_order::Candidate;
use report_form::Report;
use std::alloc::Global;

/// The candidates that a report calls refuted. The only error is `OutOfMemory`.
pub(crate) fn old_refuted(alloc: Global, report: &Report) -> Result<Vec<Candidate>, OutOfMemory>
    ensures { IfOk result (λ old. old.items ≡ old_refuted report.now) }
{
    let mut old = Vec::new(alloc);
    for (_, frontier) in report.frontiers() {
        old.extend_from_slice(frontier.refuted())?;
    }
    Ok(old)
}
