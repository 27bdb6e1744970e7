//! The schedule that an assignment says.

ghost use Rattle.std.specs.Prelude.{◌≡◌, ◌+◌, ◌==◌, ◌≤◌, ℕ, if◌then◌else◌, length, IfOk};
ghost use Rattle.schedule.specs.{Links.TopologyValue, Placed.PlacementValue, Sends.IsStep};
ghost use Rattle.cnf_formula.specs.{Literals.is_true, Formulas.Satisfies};
ghost use Rattle.round_encoding.specs.{Frames.{extra_round, own_variables}, Decoding.{rounds_said, rounds_of, decoded, total_said}, Candidates.{IsEncoding, IsEncodingOf, IsTightSolution}};

use crate::OutOfMemory;
use crate::encoding::Encoding;
use crate::extra::extra_round;
use cnf_formula::Assignment;
use schedule::Schedule;
use send_encoding::{SendMap, sends_of};
use std::alloc::Global;

/// One where the step has this extra round, else none.
fn said_one(map: &SendMap, extra: u8, assignment: &Assignment, step: u8, number: u8) -> u8
    requires vars { own_variables (record { map = map.now; extra = extra }) ≤ length assignment.now }
    requires few { extra ≤ 8 }
    requires step { IsStep map.now.steps step }
    requires number { IsStep extra number }
    ensures { result ≡ (if is_true assignment.now (extra_round (record { map = map.now; extra = extra }) step number) then 1 else 0) }
{
    if extra_round(map, extra, step, number).is_true(&assignment.values) {
        1
    } else {
        0
    }
}

/// One round, and the extra rounds that are true.
#[tactic(auto, using(send_encoding::proofs::Picking::counts_one_more))]
fn rounds_said(map: &SendMap, extra: u8, assignment: &Assignment, step: u8) -> u8
    requires vars { own_variables (record { map = map.now; extra = extra }) ≤ length assignment.now }
    requires few { extra ≤ 8 }
    requires step { IsStep map.now.steps step }
    ensures said { result ≡ rounds_said (record { map = map.now; extra = extra }) assignment.now step }
    ensures few { result ≤ 9 }
{
    let mut said = 1;
    for index in 0..extra {
        said += said_one(map, extra, assignment, step, index + 1);
    }
    said
}

/// The rounds that all steps have so.
#[tactic(auto, using(send_encoding::proofs::Picking::sums_one_more))]
fn all_said(map: &SendMap, extra: u8, assignment: &Assignment) -> u8
    requires vars { own_variables (record { map = map.now; extra = extra }) ≤ length assignment.now }
    requires few { extra ≤ 8 }
    requires steps { map.now.steps ≤ 16 }
    ensures { result ≡ total_said (record { map = map.now; extra = extra }) assignment.now }
{
    let mut total = 0;
    for index in 0..map.steps() {
        total += rounds_said(map, extra, assignment, index + 1);
    }
    total
}

/// The rounds of a step, with what is left where it is the last.
fn rounds_at(map: &SendMap, extra: u8, assignment: &Assignment, step: u8, left: u8) -> u8
    requires vars { own_variables (record { map = map.now; extra = extra }) ≤ length assignment.now }
    requires few { extra ≤ 8 }
    requires step { IsStep map.now.steps step }
    requires left { left ≤ 24 }
    ensures { result ≡ rounds_said (record { map = map.now; extra = extra }) assignment.now step + (if step == map.now.steps then left else 0) }
{
    let said = rounds_said(map, extra, assignment, step);
    if step == map.steps() {
        said + left
    } else {
        said
    }
}

/// The rounds of each step, the last with what is left.
fn rounds_of(
    alloc: Global,
    map: &SendMap,
    extra: u8,
    assignment: &Assignment,
) -> Result<Vec<u8>, OutOfMemory>
    requires vars { own_variables (record { map = map.now; extra = extra }) ≤ length assignment.now }
    requires few { extra ≤ 8 }
    requires steps { map.now.steps ≤ 16 }
    ensures { IfOk result (λ v. v.items ≡ rounds_of (record { map = map.now; extra = extra }) assignment.now) }
{
    let left = (map.steps() + extra).saturating_sub(all_said(map, extra, assignment));
    (1..map.steps() + 1)
        .map(|step| rounds_at(map, extra, assignment, step, left))
        .collect(alloc)
}

/// The schedule that a satisfying assignment says: the sends that are true, and each step's rounds,
/// of which the last step has those that are left. It solves the candidate and wastes no send. The
/// only error is `OutOfMemory`.
pub fn decode(
    alloc: Global,
    encoding: &Encoding,
    assignment: &Assignment,
) -> Result<Schedule, OutOfMemory>
    requires encoding { IsEncoding encoding.now }
    requires satisfied { Satisfies assignment.now encoding.now.formula }
    ensures schedule { IfOk result (λ s. s ≡ decoded (record { map = encoding.now.map; extra = encoding.now.extra }) assignment.now) }
    ensures solves { (t : TopologyValue) (pre post : PlacementValue) (steps rounds : ℕ) → IsEncodingOf t pre post steps rounds encoding.now → IfOk result (λ s. IsTightSolution t pre post s steps rounds) }
{
    let rounds = rounds_of(alloc, &encoding.map, encoding.extra, assignment)?;
    let sends = sends_of(alloc, &encoding.map, assignment)?;
    Ok(Schedule::new(rounds, sends))
}
