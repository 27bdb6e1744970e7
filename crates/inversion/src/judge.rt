//! The verdict on a schedule that adds up.

ghost use Rattle.std.specs.Prelude.{◌≡◌, ◌↔◌, length, sum, IfOk};
ghost use Rattle.schedule.specs.{Sends.{IsInRange, IsSchedule}, Bags.contributions, Summing.Sums, JoinedRuns.joined_after};
ghost use Rattle.bag_runs.specs.Stores.{stored};
ghost use Rattle.inversion.specs.Judging.{counts_judged, first_uneven, last_bags, misfit_of, sum_verdict_of};

use crate::counting::counts_verdict;
use crate::verdict::SumVerdict;
use bag_runs::{Store, last_store};
use schedule::{
    OutOfMemory, Placement, Schedule, Topology, first_overfull, first_unlinked, load_of,
};
use std::alloc::Global;

/// Whether the schedule adds up what each node contributes, exactly once, at each pair of the
/// demand within the bandwidth, and if not, what fails first: the links of the sends, the bandwidth
/// of the groups, or a count. The only error is `OutOfMemory`.
pub fn sums(
    alloc: Global,
    topology: &Topology,
    demand: &Placement,
    schedule: &Schedule,
) -> Result<SumVerdict, OutOfMemory>
    requires nodes { demand.now.nodes ≡ topology.now.nodes }
    requires in_range { IsInRange demand.now.chunks topology.now.nodes schedule.now }
    ensures exact { IfOk result (λ v. v ≡ sum_verdict_of topology.now demand.now schedule.now) }
    ensures sums { IfOk result (λ v. (v ≡ SumVerdict.Sums) ↔ Sums topology.now demand.now schedule.now (length schedule.now.rounds) (sum schedule.now.rounds)) }
{
    let chunks = demand.chunks();
    if let Some(misfit) = first_misfit(topology, schedule) {
        return Ok(misfit);
    }
    let adding = schedule.rounds().len() as u8;
    judge_counts(alloc, topology, chunks, demand, schedule, adding)
}

/// The verdict that `sums` gives, where the store after the last step, of a run in which every step
/// adds, is made already.
pub fn sums_by_last(
    topology: &Topology,
    demand: &Placement,
    schedule: &Schedule,
    last: &Store,
) -> SumVerdict
    requires nodes { demand.now.nodes ≡ topology.now.nodes }
    requires in_range { IsInRange 65536 topology.now.nodes schedule.now }
    requires last { last.now ≡ stored demand.now.chunks topology.now.nodes (last_bags topology.now schedule.now) }
    ensures { result ≡ sum_verdict_of topology.now demand.now schedule.now }
{
    if let Some(misfit) = first_misfit(topology, schedule) {
        return misfit;
    }
    counts_verdict(last, demand)
}

/// The first send without a usable link, or else the first step and group over the bandwidth.
#[tactic(auto, using(schedule::proofs::Overfull::group_read, schedule::proofs::Overfull::group_tabled, schedule::proofs::Verdicts::overfull_below, crate::proofs::Misfits::misfit_overfull))]
pub fn first_misfit(topology: &Topology, schedule: &Schedule) -> Option<SumVerdict>
    requires { IsInRange 65536 topology.now.nodes schedule.now }
    ensures misfit { result ≡ misfit_of topology.now schedule.now }
    ensures limits { IsSchedule schedule.now }
{
    if let Some(hop) = first_unlinked(topology, schedule.sends()) {
        return Some(SumVerdict::NoLink { hop });
    }
    let (step, group) = first_overfull(topology, schedule)?;
    let count = load_of(&topology.groups()[group as usize], schedule, step);
    Some(SumVerdict::Overfull { step, group, count })
}

/// Whether each pair of the demand, of so many chunks, ends with one contribution of each node, and
/// if not, the first count that is another. The steps up to `adding` add, and the later ones copy.
/// The only error is `OutOfMemory`.
pub fn judge_counts(
    alloc: Global,
    topology: &Topology,
    chunks: u16,
    demand: &Placement,
    schedule: &Schedule,
    adding: u8,
) -> Result<SumVerdict, OutOfMemory>
    requires chunks { demand.now.chunks ≡ chunks }
    requires nodes { demand.now.nodes ≡ topology.now.nodes }
    requires in_range { IsInRange chunks topology.now.nodes schedule.now }
    ensures { let last = joined_after (contributions topology.now.nodes) schedule.now adding (length schedule.now.rounds) in
        IfOk result (λ v. v ≡ counts_judged last (first_uneven last topology.now.nodes demand.now.pairs)) }
{
    let start = Store::of_contributions(alloc, chunks, topology.nodes())?;
    let last = last_store(start, schedule, adding)?;
    Ok(counts_verdict(&last, demand))
}
