//! The replay of a point of a report.

ghost use Rattle.std.specs.Prelude.{◌≡◌, ◌++◌, true, false, Some, Contains, IfOk, OnOk};
ghost use Rattle.report_form.specs.Numbered.{point_at, points_of};
ghost use Rattle.text_lines.specs.Text.{text_of};
ghost use Rattle.replay_text.specs.{Showing.{adding_of, is_copied, shown_in, shown_text, summed_verdict}, Points.{IsShowable, body_lines, last_store_of}};

use crate::OutOfMemory;
use crate::adding::{copies, is_joined, steps_that_add};
use crate::order::push_order;
use crate::running::start_store;
use crate::steps::push_steps;
use crate::verdicts::{push_sum_verdict, push_verdict, says_solves, says_sums};
use crate::words::push_numbered;
use allreduce_join::all_summed_by_last;
use candidate_order::Point;
use collective_spec::{Instance, Spec, spec_demand, spec_instance};
use inversion::{SumVerdict, sums_by_last};
use node_programs::Store;
use outer_ports::Part;
use replay::replay_steps;
use report_form::{Report, spec_of_part};
use schedule::{run_steps, solves_by_run};
use std::alloc::Global;
use text_lines::push_word;

/// Appends the lines of a point that copies: who holds which chunk after each step, and the
/// verdict.
fn push_copied(
    alloc: Global,
    out: &mut Vec<u8>,
    report: &Report,
    part: Part,
    point: &Point,
    spec: &Spec,
    order: Option<u64>,
) -> Result<(), OutOfMemory>
    requires listed { Contains (points_of report.now) (part, point.now) }
    requires showable { IsShowable (shown_in report.now (part, point.now)) }
    requires spec { spec.now ≡ (shown_in report.now (part, point.now)).question.spec }
    requires copied { is_copied (shown_in report.now (part, point.now)) ≡ true }
    ensures { OnOk result (out.new.items ≡ out.old.items ++ text_of (body_lines (shown_in report.now (part, point.now)) order)) }
{
    let named = report.topology();
    let names = named.names();
    let topology = named.topology();
    let schedule = point.schedule();
    let Instance { pre, post, .. } = spec_instance(
        alloc,
        spec,
        topology.nodes(),
        point.candidate().c,
    )?;
    let run = run_steps(alloc, &pre, schedule)?;
    let verdict = solves_by_run(topology, &pre, &post, schedule, &run);
    push_steps(out, names, &run)?;
    push_verdict(out, names, verdict)?;
    let holds = says_solves(&verdict);
    push_order(alloc, out, report, part, point, &run, holds, order)
}

/// The verdict on a point that adds up, of which so many first steps do, by the store after its
/// last step.
fn judge_sums(
    alloc: Global,
    report: &Report,
    part: Part,
    point: &Point,
    spec: &Spec,
    adding: u8,
    last: &Store,
) -> Result<SumVerdict, OutOfMemory>
    requires showable { IsShowable (shown_in report.now (part, point.now)) }
    requires spec { spec.now ≡ (shown_in report.now (part, point.now)).question.spec }
    requires adds { is_copied (shown_in report.now (part, point.now)) ≡ false }
    requires adding { adding ≡ adding_of (shown_in report.now (part, point.now)) }
    requires last { last.now ≡ last_store_of (shown_in report.now (part, point.now)) }
    ensures { IfOk result (λ v. v ≡ summed_verdict (shown_in report.now (part, point.now))) }
{
    let topology = report.topology().topology();
    let nodes = topology.nodes();
    let count = point.candidate().c;
    if is_joined(part) {
        let chunks = spec.chunks(nodes, count);
        all_summed_by_last(alloc, topology, chunks, point.schedule(), adding, last)
    } else {
        let demand = spec_demand(alloc, spec, nodes, count)?;
        Ok(sums_by_last(topology, &demand, point.schedule(), last))
    }
}

/// Appends the lines of a point that adds up: the bags of each node after each step, and the
/// verdict.
fn push_added(
    alloc: Global,
    out: &mut Vec<u8>,
    report: &Report,
    part: Part,
    point: &Point,
    spec: &Spec,
    order: Option<u64>,
) -> Result<(), OutOfMemory>
    requires listed { Contains (points_of report.now) (part, point.now) }
    requires showable { IsShowable (shown_in report.now (part, point.now)) }
    requires spec { spec.now ≡ (shown_in report.now (part, point.now)).question.spec }
    requires adds { is_copied (shown_in report.now (part, point.now)) ≡ false }
    ensures { OnOk result (out.new.items ≡ out.old.items ++ text_of (body_lines (shown_in report.now (part, point.now)) order)) }
{
    let names = report.topology().names();
    let schedule = point.schedule();
    let adding = steps_that_add(point);
    let start = start_store(alloc, report, part, point, spec)?;
    let run = replay_steps(alloc, &start, schedule, adding)?;
    let last = &run[schedule.rounds().len()];
    let verdict = judge_sums(alloc, report, part, point, spec, adding, last)?;
    push_steps(out, names, &run)?;
    push_sum_verdict(out, names, verdict)?;
    let holds = says_sums(&verdict);
    push_order(alloc, out, report, part, point, &run, holds, order)
}

/// Appends the lines of a point behind its number, but for the end.
fn push_body(
    alloc: Global,
    out: &mut Vec<u8>,
    report: &Report,
    part: Part,
    point: &Point,
    spec: &Spec,
    order: Option<u64>,
) -> Result<(), OutOfMemory>
    requires listed { Contains (points_of report.now) (part, point.now) }
    requires showable { IsShowable (shown_in report.now (part, point.now)) }
    requires spec { spec.now ≡ (shown_in report.now (part, point.now)).question.spec }
    ensures { OnOk result (out.new.items ≡ out.old.items ++ text_of (body_lines (shown_in report.now (part, point.now)) order)) }
{
    if copies(part, spec) {
        push_copied(alloc, out, report, part, point, spec, order)
    } else {
        push_added(alloc, out, report, part, point, spec, order)
    }
}

/// The replay of a point: what each node has after step 0, 1 and so on, and the verdict on its
/// schedule; and where an order is asked for and the verdict holds, the run of its programs in the
/// order that this seed draws. The only error is `OutOfMemory`.
pub fn replay_point(
    alloc: Global,
    report: &Report,
    number: u32,
    part: Part,
    point: &Point,
    order: Option<u64>,
) -> Result<Vec<u8>, OutOfMemory>
    requires { point_at report.now number ≡ Some (part, point.now) }
    ensures { IfOk result (λ text. text.items ≡ shown_text number (shown_in report.now (part, point.now)) order) }
{
    let spec = spec_of_part(report.words(), report.topology(), part)?;
    let mut out = Vec::new(alloc);
    push_numbered(&mut out, b"replay", u64::from(number))?;
    push_body(alloc, &mut out, report, part, point, &spec, order)?;
    push_word(&mut out, b"end\n")?;
    Ok(out)
}
