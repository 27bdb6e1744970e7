ghost use Rattle.std.specs.{Prelude.{◌≡◌, ◌<◌, All, find, length}, List.range_with_len};
ghost use Rattle.schedule.specs.{Links.IsBelow, Sends.{IsInRange, IsStep}, Fitting.load, Judging.{is_overfull, first_overfull}};

use crate::group::Group;
use crate::links::LinkTable;
use crate::schedule::Schedule;
use crate::topology::Topology;

/// The first step, and the first group in it, that is over its bandwidth.
pub fn first_overfull(topology: &Topology, schedule: &Schedule) -> Option<(u8, u16)>
    requires { IsInRange 65536 topology.now.nodes schedule.now }
    ensures { result ≡ first_overfull topology.now schedule.now }
{
    for index in 0..schedule.rounds().len() as u8 {
        let step = index + 1;
        if let Some(group) = overfull_group(topology, schedule, step) {
            return Some((step, group));
        }
    }
    None
}

/// The first group that is over its bandwidth in a step.
fn overfull_group(topology: &Topology, schedule: &Schedule, step: u8) -> Option<u16>
    requires in_range { IsInRange 65536 topology.now.nodes schedule.now }
    requires step { IsStep (length schedule.now.rounds) step }
    ensures { result ≡ find (λ group. is_overfull topology.now schedule.now (step, group))
        (range_with_len 0 (length topology.now.groups)) }
{
    (0..topology.groups().len() as u16).find(|&number| is_overfull(
        topology, schedule, step, number,
    ))
}

/// Whether a group is over its bandwidth in a step.
fn is_overfull(topology: &Topology, schedule: &Schedule, step: u8, number: u16) -> bool
    requires in_range { IsInRange 65536 topology.now.nodes schedule.now }
    requires step { IsStep (length schedule.now.rounds) step }
    requires number { number < length topology.now.groups }
    ensures { result ≡ is_overfull topology.now schedule.now (step, number) }
{
    let rounds = schedule.rounds()[step as usize - 1];
    let group = &topology.groups()[number as usize];
    let bandwidth = u32::from(group.width()) * u32::from(rounds);
    load_of(group, schedule, step) > bandwidth
}

/// How many sends of the step have their link in the group.
pub fn load_of(group: &Group, schedule: &Schedule, step: u8) -> u32
    requires in_range { IsInRange 65536 16 schedule.now }
    requires links { All (IsBelow 16) group.now.links }
    ensures { result ≡ load group.now step schedule.now.sends }
{
    LinkTable::of(group).count(schedule.sends_of(step))
}
