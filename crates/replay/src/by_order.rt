//! Runs of a machine in the order that a seed draws.

ghost use Rattle.std.specs.{Prelude.{◌≡◌, ℕ, ◌+◌, ◌<◌, ◌≤◌, [], ◌∷◌, ◌++◌, Some, IfOk, OnErr, vec_len}, Vec.vec_capacity};
ghost use Rattle.schedule.specs.{Bags.Bags, Sends.{IsInRange, IsSchedule, ScheduleValue}};
ghost use Rattle.node_programs.specs.{Runs.{chosen, machine_run}, Ended.machine_of};
ghost use Rattle.replay.specs.Ends.{IsLast};

use crate::OutOfMemory;
use crate::drawing::Generator;
use node_programs::Machine;
use std::alloc::Global;

/// Runs the machine until no node is enabled, in the order that the seed draws, and gives the nodes
/// that moved. The only error is `OutOfMemory`; then the machine is as before.
pub fn replay_by_order(
    alloc: Global,
    machine: &mut Machine,
    seed: u64,
) -> Result<Vec<u8>, OutOfMemory>
    ensures chosen { IfOk result (λ moves. moves.items ≡ chosen machine.old seed) }
    ensures run { IfOk result (λ moves. machine_run machine.old moves.items ≡ Some machine.new) }
    // The new machine of a schedule ends finished, after as many events as it has operations, and
    // with the last store of the joined run.
    ensures finished { IfOk result (λ moves. (chunks nodes : ℕ) (start : Bags) (s : ScheduleValue) (adding : ℕ) → IsSchedule s → IsInRange chunks nodes s
        → machine.old ≡ machine_of chunks nodes start s adding → IsLast chunks nodes start s adding machine.new moves.items) }
    ensures err { OnErr result (machine.new ≡ machine.old) }
{
    let Some(count) = machine.operations() else {
        return Err(OutOfMemory);
    };
    let mut moves = Vec::with_capacity(alloc, count)?;
    let mut generator = Generator::new(seed);
    for _turn in 0..count {
        let Some(node) = generator.next(machine) else {
            return Ok(moves);
        };
        machine.fire(node);
        push(&mut moves, node);
    }
    Ok(moves)
}

/// Puts a node behind the others, where there is room.
fn push(moves: &mut Vec<u8>, node: u8)
    requires { vec_len moves.old < vec_capacity moves.old }
    ensures items { moves.new.items ≡ moves.old.items ++ node ∷ [] }
    ensures len { vec_len moves.new ≡ vec_len moves.old + 1 }
    ensures room { vec_capacity moves.old ≤ vec_capacity moves.new }
{
    let Ok(()) = moves.push(node) else {
        unreachable!();
    };
}
