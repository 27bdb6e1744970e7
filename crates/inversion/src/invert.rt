//! Schedules that run backwards, over links turned round (Cai et al., PPoPP 2021, inversion).

ghost use Rattle.std.specs.Prelude.{◌≡◌, ℕ, map, true, length, IfOk};
ghost use Rattle.schedule.specs.{Links.{TopologyValue, reversed_of}, Placed.{PlacementValue, HeldByOne, IsPlacement}, Sends.IsInRange, Solving.{Solves, Tight}, Summing.Sums, Inverse.{inverse_hop, inverse_of}, Rows.everywhere};
ghost use Rattle.collective_spec.specs.Collectives.{IsSpec, adds_up};
ghost use Rattle.candidate_order.specs.{Frontiers.{QuestionValue, RightFrontier, Searched}, Copied.copied_question};
ghost use Rattle.inversion.specs.Inverted.{inverted_frontier, inverted_point};

use candidate_order::{Frontier, Point};
use schedule::{Hop, OutOfMemory, Schedule, hop_cmp};
use std::alloc::Global;

/// The inverse of a schedule: the rounds from the last step to the first, and each send back, in
/// the step that is as far from the last as its own is from the first. Of a schedule that wastes no
/// send and brings each chunk from its one holder to every node, over the links turned round, it
/// adds each chunk up at its holder. The only error is `OutOfMemory`.
pub fn invert_schedule(alloc: Global, schedule: &Schedule) -> Result<Schedule, OutOfMemory>
    ensures inverse { IfOk result (λ s. s ≡ inverse_of schedule.now) }
    ensures sums { IfOk result (λ s. (t : TopologyValue) (pre : PlacementValue) (steps rounds : ℕ) → IsPlacement pre → pre.nodes ≡ t.nodes → HeldByOne pre
        → IsInRange pre.chunks pre.nodes schedule.now → Tight pre schedule.now
        → Solves (reversed_of t) pre (everywhere pre.chunks pre.nodes) schedule.now steps rounds → Sums t pre s steps rounds) }
{
    let mut rounds = schedule.rounds().to_vec(alloc)?;
    rounds.reverse();
    let mut sends = sends_back(alloc, schedule)?;
    sends.sort_unstable_by(|a, b| hop_cmp(a, b));
    Ok(Schedule::new(rounds, sends))
}

/// Each send back, in the order of the sends.
fn sends_back(alloc: Global, schedule: &Schedule) -> Result<Vec<Hop>, OutOfMemory>
    ensures { IfOk result (λ sends. sends.items ≡ map (inverse_hop (length schedule.now.rounds)) schedule.now.sends) }
{
    let steps = schedule.rounds().len() as u8;
    let mut sends = Vec::new(alloc);
    for hop in schedule.sends() {
        sends.push(Hop {
            chunk: hop.chunk,
            from: hop.to,
            to: hop.from,
            step: steps + 1 - hop.step,
        })?;
    }
    Ok(sends)
}

/// The frontier with each point's schedule inverted, and the rest as it is. Of a frontier that is
/// right and searched for the collective that copies, over the links turned round, this is one of
/// the reduction. The only error is `OutOfMemory`.
pub fn invert_frontier(alloc: Global, frontier: &Frontier) -> Result<Frontier, OutOfMemory>
    ensures inverted { IfOk result (λ f. f ≡ inverted_frontier frontier.now) }
    ensures right { IfOk result (λ f. (q : QuestionValue) → adds_up q.spec ≡ true → IsSpec q.topology.nodes q.spec
        → RightFrontier (copied_question q) frontier.now → Searched (copied_question q) frontier.now → RightFrontier q f) }
    ensures searched { IfOk result (λ f. (q : QuestionValue) → adds_up q.spec ≡ true → IsSpec q.topology.nodes q.spec
        → RightFrontier (copied_question q) frontier.now → Searched (copied_question q) frontier.now → Searched q f) }
{
    let mut points = Vec::new(alloc);
    for point in frontier.points() {
        points.push(invert_point(alloc, point)?)?;
    }
    let refuted = frontier.refuted().to_vec(alloc)?;
    let unknown = frontier.unknown().to_vec(alloc)?;
    Ok(Frontier::new(points, refuted, unknown))
}

/// The same candidate and mark, with the inverse of the schedule.
fn invert_point(alloc: Global, point: &Point) -> Result<Point, OutOfMemory>
    ensures { IfOk result (λ p. p ≡ inverted_point point.now) }
{
    let schedule = invert_schedule(alloc, point.schedule())?;
    Ok(Point::new(point.candidate(), schedule, point.mark()))
}
