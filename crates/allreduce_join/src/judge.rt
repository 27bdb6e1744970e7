//! The verdict on a schedule whose first steps add and whose later ones copy.

ghost use Rattle.std.specs.Prelude.{◌≡◌, ◌↔◌, ℕ, IfOk, Option, unwrap_or};
ghost use Rattle.schedule.specs.{Bags.Bags, Judging.{first_overfull, first_unlinked}, Sends.{IsInRange, IsSchedule}, JoinedRuns.{AllSummed, first_clash}};
ghost use Rattle.bag_runs.specs.Stores.{stored};
ghost use Rattle.inversion.specs.Judging.{counts_judged, sum_judged};
ghost use Rattle.allreduce_join.specs.Judging.{joined_bags, joined_verdict_of};

use crate::clash::first_clash;
use bag_runs::Store;
use collective_spec::Layout;
use inversion::{SumVerdict, counts_verdict, first_misfit, judge_counts};
use schedule::{OutOfMemory, Schedule, Topology};
use std::alloc::Global;

/// Whether each chunk ends at each node with one contribution of each node, and if not, what fails
/// first: the links of the sends, the bandwidth of the groups, a chunk that comes to a node twice
/// in a step that copies, or a count. The steps up to `adding` add, and the later ones copy. The
/// only error is `OutOfMemory`.
pub fn all_summed(
    alloc: Global,
    topology: &Topology,
    chunks: u16,
    schedule: &Schedule,
    adding: u8,
) -> Result<SumVerdict, OutOfMemory>
    requires in_range { IsInRange chunks topology.now.nodes schedule.now }
    ensures exact { IfOk result (λ v. v ≡ joined_verdict_of topology.now chunks schedule.now adding) }
    ensures summed { IfOk result (λ v. (v ≡ SumVerdict.Sums) ↔ AllSummed topology.now chunks schedule.now adding) }
{
    let nodes = topology.nodes();
    if let Some(fault) = first_fault(alloc, topology, chunks, schedule, adding)? {
        return Ok(fault);
    }
    let everywhere = Layout::All.placement(alloc, chunks, nodes)?;
    judge_counts(alloc, topology, chunks, &everywhere, schedule, adding)
}

/// The verdict that `all_summed` gives, where the store after the last step of the run is made
/// already. The only error is `OutOfMemory`.
pub fn all_summed_by_last(
    alloc: Global,
    topology: &Topology,
    chunks: u16,
    schedule: &Schedule,
    adding: u8,
    last: &Store,
) -> Result<SumVerdict, OutOfMemory>
    requires in_range { IsInRange chunks topology.now.nodes schedule.now }
    requires last { last.now ≡ stored chunks topology.now.nodes (joined_bags topology.now schedule.now adding) }
    ensures { IfOk result (λ v. v ≡ joined_verdict_of topology.now chunks schedule.now adding) }
{
    let nodes = topology.nodes();
    if let Some(fault) = first_fault(alloc, topology, chunks, schedule, adding)? {
        return Ok(fault);
    }
    let everywhere = Layout::All.placement(alloc, chunks, nodes)?;
    Ok(counts_verdict(last, &everywhere))
}

/// The verdict on the first send without a usable link, or else on the first step and group over
/// the bandwidth, or else on the first chunk that comes to a node twice in a step that copies. The
/// only error is `OutOfMemory`.
fn first_fault(
    alloc: Global,
    topology: &Topology,
    chunks: u16,
    schedule: &Schedule,
    adding: u8,
) -> Result<Option<SumVerdict>, OutOfMemory>
    requires { IsInRange chunks topology.now.nodes schedule.now }
    // It comes before whatever is said of the counts.
    ensures fault { IfOk result (λ fault. (last : Bags) (due : Option (ℕ × ℕ × ℕ)) → unwrap_or fault (counts_judged last due)
        ≡ sum_judged topology.now schedule.now last (first_unlinked topology.now schedule.now) (first_overfull topology.now schedule.now) (first_clash chunks topology.now.nodes schedule.now adding) due) }
    ensures limits { IfOk result (λ _. IsSchedule schedule.now) }
{
    let nodes = topology.nodes();
    if let Some(misfit) = first_misfit(topology, schedule) {
        return Ok(Some(misfit));
    }
    if let Some((step, chunk, node)) = first_clash(alloc, chunks, nodes, schedule, adding)? {
        return Ok(Some(SumVerdict::Clash { chunk, node, step }));
    }
    Ok(None)
}
