ghost use Rattle.std.specs.Prelude.{◌≡◌, IfOk};
ghost use Rattle.schedule.specs.{Sends.IsInRange, Running.{step_of, run_of}};

use crate::OutOfMemory;
use crate::placement::Placement;
use crate::schedule::Schedule;
use std::alloc::Global;

/// The placements after step 0, which is `pre`, to the last step. A send whose sender lacks the
/// chunk before its step brings nothing. The only error is `OutOfMemory`.
pub fn run_steps(
    alloc: Global,
    pre: &Placement,
    schedule: &Schedule,
) -> Result<Vec<Placement>, OutOfMemory>
    requires { IsInRange pre.now.chunks pre.now.nodes schedule.now }
    ensures { IfOk result (λ run. run.items ≡ run_of pre.now schedule.now) }
{
    let steps = schedule.rounds().len();
    let mut run = Vec::with_capacity(alloc, steps + 1)?;
    let mut held = pre.clone()?;
    for step in 0..steps as u8 {
        let next = joined(&held, schedule, step + 1)?;
        run.push(held)?;
        held = next;
    }
    run.push(held)?;
    Ok(run)
}

/// What is held after a step, of what is held before it.
fn joined(before: &Placement, schedule: &Schedule, step: u8) -> Result<Placement, OutOfMemory>
    requires { IsInRange before.now.chunks before.now.nodes schedule.now }
    ensures { IfOk result (λ p. p ≡ step_of schedule.now.sends before.now step) }
{
    let mut joined = before.clone()?;
    for hop in schedule.sends_of(step) {
        if before.holds(hop.chunk, hop.from) {
            joined.insert(hop.chunk, hop.to);
        }
    }
    Ok(joined)
}
