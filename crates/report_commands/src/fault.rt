//! Which faults of links a report takes.

ghost use Rattle.std.specs.Prelude.{◌≡◌, None, IfOk};
ghost use Rattle.run_rules.specs.{Read.IsSearchableAs, Tasks.fault_in};
ghost use Rattle.degraded_search.specs.Faults.{CanFail};

use crate::OutOfMemory;
use collective_spec::Kind;
use command_words::WordCode;
use degraded_search::LinkFault;
use report_form::Report;
use run_rules::{Answer, refused_word};
use std::alloc::Global;

/// The answer that refuses the fault: the report is of an allreduce, it has no such group, or the
/// group is no wider than what is left of it. `None` where the report takes the fault.
pub(crate) fn fault_refusal(
    alloc: Global,
    report: &Report,
    fault: LinkFault,
) -> Result<Option<Answer>, OutOfMemory>
    ensures refuses { IfOk result (IsSearchableAs (fault_in report.now fault.group fault.group_word fault.width fault.width_word)) }
    ensures takes { IfOk result (λ refused. refused ≡ None → CanFail report.now fault.group fault.width) }
{
    if report.words().collective().kind == Kind::Allreduce {
        return Ok(Some(refused_word(alloc, WordCode::ReportNotTaken, 0)?));
    }
    let groups = report.topology().topology().groups();
    let Some(old) = groups.get(usize::from(fault.group)) else {
        let answer = refused_word(alloc, WordCode::UnknownGroup, fault.group_word)?;
        return Ok(Some(answer));
    };
    if fault.width >= old.width() {
        let answer = refused_word(alloc, WordCode::NotNarrower, fault.width_word)?;
        return Ok(Some(answer));
    }
    Ok(None)
}
