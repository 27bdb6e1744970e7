//! A report's search done anew, and the answer that tells it.

ghost use Rattle.std.specs.Prelude.{◌≡◌, ◌≤◌, IfOk};
ghost use Rattle.outer_ports.specs.declared.part.Part.TheVariants.{Whole};
ghost use Rattle.report_form.specs.Reports.{question_of};
ghost use Rattle.round_encoding.specs.Candidates.{size_limit};
ghost use Rattle.candidate_formula.specs.Sizes.{size_of};
ghost use Rattle.frontier_audit.specs.Rights.{IsRight};
ghost use Rattle.run_rules.specs.Degraded.{IsNewSearch, left_topology};
ghost use Rattle.degraded_search.specs.Faults.{CanFail};

use crate::OutOfMemory;
use crate::fault::LinkFault;
use crate::old_refuted::old_refuted;
use crate::printing::print_found;
use crate::searching::search_left;
use degraded_links::narrow;
use outer_ports::Part;
use report_form::{Report, spec_of_part};
use run_rules::{Answer, Status};
use std::alloc::Global;
use topology_text::NamedTopology;

/// The text of what is found over the links that a fault left of those of a report that is right.
/// The only error is `OutOfMemory`.
fn text_over(
    alloc: Global,
    report: &Report,
    fault: LinkFault,
    left: &NamedTopology,
) -> Result<Vec<u8>, OutOfMemory>
    requires fault { CanFail report.now fault.group fault.width }
    requires small { size_of (question_of report.now.words report.now.topology Whole) ≤ size_limit }
    requires right { IsRight report.now }
    requires left { left.now ≡ left_topology report.now.topology fault.group fault.width }
    ensures { IfOk result (λ text. IsNewSearch report.now fault.group fault.width Status.Done text.items) }
{
    let words = report.words();
    let topology = report.topology();
    let old = old_refuted(alloc, report)?;
    let spec = spec_of_part(words, topology, Part::Whole)?;
    let given = topology.topology();
    let limits = words.limits();
    let found = search_left(alloc, given, left.topology(), &spec, limits, fault, old)?;
    print_found(alloc, words, left, &found)
}

/// The answer to a fault of a report that is right: its search done anew. The only error is
/// `OutOfMemory`.
pub fn search_anew(alloc: Global, report: &Report, fault: LinkFault) -> Result<Answer, OutOfMemory>
    requires fault { CanFail report.now fault.group fault.width }
    requires small { size_of (question_of report.now.words report.now.topology Whole) ≤ size_limit }
    requires right { IsRight report.now }
    ensures { IfOk result (λ a. IsNewSearch report.now fault.group fault.width a.status a.text.items) }
{
    let left = narrow(alloc, report.topology(), fault.group, fault.width)?;
    let text = text_over(alloc, report, fault, &left)?;
    Ok(Answer {
        status: Status::Done,
        text,
    })
}
