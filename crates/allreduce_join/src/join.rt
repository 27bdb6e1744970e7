//! A reducescatter and then an allgather, as one schedule (Cai et al., PPoPP 2021, allreduce).

ghost use Rattle.std.specs.Prelude.{◌≡◌, ◌+◌, ◌<◌, ◌≤◌, ◌++◌, ℕ, map, length, IfOk, OnOk};
ghost use Rattle.schedule.specs.{Links.TopologyValue, Sends.IsSchedule, Solving.Tight, JoinedRuns.AllSummed};
ghost use Rattle.collective_spec.specs.Collectives.{chunks_of};
ghost use Rattle.candidate_order.specs.{Ranges.LimitsValue, Frontiers.{IsSolvedBy, instance_for}};
ghost use Rattle.allreduce_join.specs.{Joins.{IsJoinable, join_of, one_after}, Parts.{gather_part, reduce_part}};

use candidate_order::{Candidate, Mark, Point};
use collective_spec::Kind;
use schedule::{Hop, OutOfMemory, Schedule};
use std::alloc::Global;

/// The join of two points of one chunk count: the first point's schedule, whose steps add, and then
/// the second's, whose steps copy. It has the steps and the rounds of both. Where the first sums a
/// reducescatter, and the second is an allgather that wastes no send, every chunk is summed at
/// every node. The only error is `OutOfMemory`.
///
/// Each point has the steps, at most 8, and the rounds of its schedule.
pub fn join_points(alloc: Global, reduce: &Point, gather: &Point) -> Result<Point, OutOfMemory>
    requires same_count { gather.now.candidate.c ≡ reduce.now.candidate.c }
    requires reduce { IsJoinable reduce.now }
    requires gather { IsJoinable gather.now }
    ensures exact { IfOk result (λ p. p ≡ join_of reduce.now gather.now) }
    ensures summed { IfOk result (λ p. (root : ℕ) (t : TopologyValue) (limits : LimitsValue) → 0 < t.nodes
        → IsSolvedBy (reduce_part root t limits) reduce.now.candidate reduce.now.schedule
        → IsSolvedBy (gather_part root t limits) gather.now.candidate gather.now.schedule
        → Tight (instance_for (gather_part root t limits) gather.now.candidate).pre gather.now.schedule
        → AllSummed t (chunks_of Kind.Allreduce t.nodes p.candidate.c) p.schedule reduce.now.candidate.s) }
{
    let (first, second) = (reduce.candidate(), gather.candidate());
    let schedule = one_after(alloc, reduce.schedule(), gather.schedule())?;
    let mark = Mark::Joined { adding: first.s };
    Ok(Point::new(both_costs(first, second), schedule, mark))
}

/// The steps and the rounds of both, and the chunk count of the first.
fn both_costs(first: Candidate, second: Candidate) -> Candidate
    requires steps { first.s + second.s ≤ 16 }
    requires rounds { first.r + second.r ≤ 144 }
    ensures { result ≡ record { s = first.s + second.s; r = first.r + second.r; c = first.c } }
{
    Candidate {
        s: first.s + second.s,
        r: first.r + second.r,
        c: first.c,
    }
}

/// One schedule and then another, each of at most 8 steps.
fn one_after(alloc: Global, first: &Schedule, second: &Schedule) -> Result<Schedule, OutOfMemory>
    requires first { length first.now.rounds ≤ 8 }
    requires second { length second.now.rounds ≤ 8 }
    ensures joined { IfOk result (λ s. s ≡ one_after (length first.now.rounds) first.now second.now) }
    ensures limits { IfOk result IsSchedule }
{
    let steps = first.rounds().len() as u8;
    let mut rounds = first.rounds().to_vec(alloc)?;
    rounds.extend_from_slice(second.rounds())?;
    let mut sends = first.sends().to_vec(alloc)?;
    push_later(&mut sends, second, steps)?;
    Ok(Schedule::new(rounds, sends))
}

/// Adds the sends of a schedule, so many steps later.
fn push_later(sends: &mut Vec<Hop>, second: &Schedule, steps: u8) -> Result<(), OutOfMemory>
    requires { steps ≤ 8 }
    ensures { OnOk result (sends.new.items ≡ sends.old.items ++ map (λ (h : Hop). record h { step = h.step + steps }) second.now.sends) }
{
    for hop in second.sends() {
        sends.push(Hop {
            chunk: hop.chunk,
            from: hop.from,
            to: hop.to,
            step: hop.step + steps,
        })?;
    }
    Ok(())
}
