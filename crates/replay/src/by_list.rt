//! Runs of a machine in the order that a list gives.

ghost use Rattle.std.specs.Prelude.{◌≡◌, ℕ, ◌^◌, ◌≤◌, length, unwrap_or};
ghost use Rattle.schedule.specs.{Bags.Bags, Sends.{IsInRange, IsSchedule, ScheduleValue}};
ghost use Rattle.replay.specs.declared.by_list.ListEnd.TheVariants as end;
ghost use Rattle.node_programs.specs.{Ended.machine_of, Machines.{event, is_enabled}, Stops.stop_of};
ghost use Rattle.replay.specs.Ends.{IsLast, end_of};

use node_programs::{Fired, Machine};

/// How the events of a list went.
#[derive(Clone, Copy, Debug, PartialEq, Eq)]
pub enum ListEnd {
    /// The event at this place, counted from 0, could not be done: its node is not enabled, or no
    /// node.
    Stopped { place: u32 },
    /// All were done, and every program is at its end.
    Finished,
    /// All were done, and some node has still an operation to do.
    Unfinished,
}

/// Lets the nodes of the list move in order, up to the first that cannot. The list has at most 2^32
/// places.
pub fn replay_by_list(machine: &mut Machine, nodes: &[u8]) -> ListEnd
    requires { length nodes.now ≤ 2 ^ 32 }
    ensures end { result ≡ end_of (length nodes.now) (stop_of machine.old nodes.now) }
    ensures state { machine.new ≡ (stop_of machine.old nodes.now).state }
    // The new machine of a schedule that ends finished has the last store of the joined run.
    ensures finished { result ≡ end.Finished → (chunks size : ℕ) (start : Bags) (s : ScheduleValue) (adding : ℕ) → IsSchedule s → IsInRange chunks size s
        → machine.old ≡ machine_of chunks size start s adding → IsLast chunks size start s adding machine.new nodes.now }
{
    for (place, node) in nodes.iter().enumerate() {
        if !moved(machine, *node) {
            return ListEnd::Stopped {
                place: place as u32,
            };
        }
    }
    if machine.finished() {
        ListEnd::Finished
    } else {
        ListEnd::Unfinished
    }
}

/// Whether the node moved. A number that is no node's does not.
fn moved(machine: &mut Machine, node: u8) -> bool
    ensures moved { result ≡ is_enabled machine.old node }
    ensures state { machine.new ≡ unwrap_or (event machine.old node) machine.old }
{
    node < machine.nodes() && machine.fire(node) == Fired::Fired
}
