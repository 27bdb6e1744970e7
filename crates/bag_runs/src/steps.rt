//! The stores of a schedule's run, step by step, and the last of them.

ghost use Rattle.std.specs.Prelude.{◌≡◌, true, map, length, IfOk};
ghost use Rattle.schedule.specs.{Bags.Bags, Sends.{IsInRange, is_hop_below}, JoinedRuns.{joined_after, joined_run, joined_step}};
ghost use Rattle.bag_runs.specs.Stores.{bag_in, received, stored, with_bag};

use crate::OutOfMemory;
use crate::mode::Mode;
use crate::store::Store;
use schedule::{Hop, Schedule};
use std::alloc::Global;

/// The stores after step 0, which is `start`, to the last step. The first `adding` steps add what
/// arrives; a later one copies the bag of the greatest sender whose bag is not empty. The only
/// error is `OutOfMemory`.
#[tactic(auto, using(crate::proofs::Stepping::come_none, crate::proofs::Stepping::range_kept))]
pub fn replay_steps(
    alloc: Global,
    start: &Store,
    schedule: &Schedule,
    adding: u8,
) -> Result<Vec<Store>, OutOfMemory>
    requires { IsInRange start.now.chunks start.now.nodes schedule.now }
    // They hold the bags of the joined run from any bags that the start holds.
    ensures { IfOk result (λ run. (bags : Bags) → start.now ≡ stored start.now.chunks start.now.nodes bags
        → run.items ≡ map (stored start.now.chunks start.now.nodes) (joined_run bags schedule.now adding)) }
{
    let steps = schedule.rounds().len();
    let mut run = Vec::with_capacity(alloc, steps + 1)?;
    let mut held = start.clone()?;
    for step in 0..steps as u8 {
        let next = stepped(&held, schedule, adding, step + 1)?;
        run.push(held)?;
        held = next;
    }
    run.push(held)?;
    Ok(run)
}

/// The store after the last step, of that before the first. The first `adding` steps add what
/// arrives; a later one copies the bag of the greatest sender whose bag is not empty. The only
/// error is `OutOfMemory`.
#[tactic(auto, using(crate::proofs::Stepping::after_none, crate::proofs::Stepping::range_kept, crate::proofs::Stepping::after_more))]
pub fn last_store(start: Store, schedule: &Schedule, adding: u8) -> Result<Store, OutOfMemory>
    requires { IsInRange start.chunks start.nodes schedule.now }
    // It holds the last bags of the joined run from any bags that the start holds.
    ensures { IfOk result (λ last. (bags : Bags) → start ≡ stored start.chunks start.nodes bags
        → last ≡ stored start.chunks start.nodes (joined_after bags schedule.now adding (length schedule.now.rounds))) }
{
    let mut last = start;
    for step in 0..schedule.rounds().len() as u8 {
        last = stepped(&last, schedule, adding, step + 1)?;
    }
    Ok(last)
}

/// The store after a step, of the store before it.
#[tactic(auto, using(crate::proofs::Arriving::chunks_arrived, crate::proofs::Arriving::nodes_arrived))]
fn stepped(before: &Store, schedule: &Schedule, adding: u8, step: u8) -> Result<Store, OutOfMemory>
    requires { IsInRange before.now.chunks before.now.nodes schedule.now }
    ensures bags { IfOk result (λ after. (bags : Bags) → before.now ≡ stored before.now.chunks before.now.nodes bags
        → after ≡ stored before.now.chunks before.now.nodes (joined_step schedule.now.sends adding bags step)) }
    ensures chunks { IfOk result (λ after. after.chunks ≡ before.now.chunks) }
    ensures nodes { IfOk result (λ after. after.nodes ≡ before.now.nodes) }
{
    let mode = Mode::at(adding, step);
    let mut after = before.clone()?;
    for hop in schedule.sends_of(step) {
        arrive(&mut after, before, hop, mode);
    }
    Ok(after)
}

/// What a send brings arrives: the bag that its sender has before the step.
fn arrive(after: &mut Store, before: &Store, hop: &Hop, mode: Mode)
    requires chunks { after.old.chunks ≡ before.now.chunks }
    requires nodes { after.old.nodes ≡ before.now.nodes }
    requires in_range { is_hop_below before.now.chunks before.now.nodes hop.now ≡ true }
    ensures { after.new ≡ with_bag after.old hop.now.chunk hop.now.to
        (received mode (bag_in after.old hop.now.chunk hop.now.to) (bag_in before.now hop.now.chunk hop.now.from)) }
{
    let arrived = before.bag(hop.chunk, hop.from);
    after.receive(hop.chunk, hop.to, mode, arrived);
}
