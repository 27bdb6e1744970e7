ghost use Rattle.std.specs.{Prelude.{◌≡◌, ◌<◌, All, IfOk, None, Option, find, not, true}, List.range_with_len};
ghost use Rattle.schedule.specs.{Links.is_usable, Placed.{holds, lacks}, Running.run_of, Sends.{IsInRange, is_hop_below, link_of}, Failing.{TellsSolves, TellsNoLink, TellsOverfull, TellsLacking}};
ghost use Rattle.schedule.specs.Judging.{first_overfull, first_unlinked, verdict_of};

use crate::OutOfMemory;
use crate::bandwidth::{first_overfull, load_of};
use crate::hop::Hop;
use crate::links::LinkTable;
use crate::placement::Placement;
use crate::run::run_steps;
use crate::schedule::Schedule;
use crate::topology::Topology;
use crate::verdict::Verdict;
use std::alloc::Global;

/// Whether the schedule brings each pair of `post` from `pre` within the bandwidth, and if not,
/// what fails first: the links of the sends, the bandwidth of the groups, or the pairs that are
/// demanded. The only error is `OutOfMemory`.
pub fn solves(
    alloc: Global,
    topology: &Topology,
    pre: &Placement,
    post: &Placement,
    schedule: &Schedule,
) -> Result<Verdict, OutOfMemory>
    requires nodes { pre.now.nodes ≡ topology.now.nodes }
    requires post_nodes { post.now.nodes ≡ pre.now.nodes }
    requires post_chunks { post.now.chunks ≡ pre.now.chunks }
    requires in_range { IsInRange pre.now.chunks pre.now.nodes schedule.now }
    ensures exact { IfOk result (λ v. v ≡ verdict_of topology.now pre.now post.now schedule.now) }
    // Each verdict comes exactly where its part of the claim is the first to fail, and names the
    // first place there.
    ensures solves { IfOk result (TellsSolves topology.now pre.now post.now schedule.now) }
    ensures no_link { IfOk result (TellsNoLink topology.now schedule.now) }
    ensures overfull { IfOk result (TellsOverfull topology.now schedule.now) }
    ensures lacking { IfOk result (TellsLacking topology.now pre.now post.now schedule.now) }
{
    // These say that the schedule and what is demanded are in their ranges.
    let _rounds = schedule.rounds();
    let _chunks = post.chunks();
    let run = run_steps(alloc, pre, schedule)?;
    Ok(solves_by_run(topology, pre, post, schedule, &run))
}

/// The verdict that `solves` gives, where the run of the schedule from `pre` is made already.
pub fn solves_by_run(
    topology: &Topology,
    pre: &Placement,
    post: &Placement,
    schedule: &Schedule,
    run: &[Placement],
) -> Verdict
    requires nodes { pre.now.nodes ≡ topology.now.nodes }
    requires post_nodes { post.now.nodes ≡ pre.now.nodes }
    requires post_chunks { post.now.chunks ≡ pre.now.chunks }
    requires in_range { IsInRange pre.now.chunks pre.now.nodes schedule.now }
    requires run { run.now ≡ run_of pre.now schedule.now }
    ensures { result ≡ verdict_of topology.now pre.now post.now schedule.now }
{
    let chunks = post.chunks();
    if let Some(hop) = first_unlinked(topology, schedule.sends()) {
        return Verdict::NoLink { hop };
    }
    if let Some((step, group)) = first_overfull(topology, schedule) {
        let count = load_of(&topology.groups()[group as usize], schedule, step);
        return Verdict::Overfull { step, group, count };
    }
    let last = &run[schedule.rounds().len()];
    match first_lacking(last, post, chunks) {
        Some((chunk, node)) => Verdict::Lacking { chunk, node },
        None => Verdict::Solves,
    }
}

/// The first send whose link stands in no group.
pub fn first_unlinked(topology: &Topology, sends: &[Hop]) -> Option<Hop>
    requires { All (λ h. is_hop_below 65536 topology.now.nodes h ≡ true) sends.now }
    ensures { result ≡ find (λ h. not (is_usable topology.now (link_of h))) sends.now }
{
    let usable = LinkTable::usable(topology);
    for hop in sends {
        if !usable.has(hop) {
            return Some(*hop);
        }
    }
    None
}

/// The first pair that is demanded and not held, of so many chunks.
fn first_lacking(last: &Placement, post: &Placement, chunks: u16) -> Option<(u16, u8)>
    requires last { last.now.chunks ≡ chunks }
    requires post { post.now.chunks ≡ chunks }
    requires nodes { last.now.nodes ≡ post.now.nodes }
    ensures { result ≡ find (λ pair. not (holds last.now pair)) post.now.pairs }
{
    let nodes = post.nodes();
    for chunk in 0..chunks {
        if let Some(node) = lacking_node(last, post, chunk, nodes) {
            return Some((chunk, node));
        }
    }
    None
}

/// The first of so many nodes that is to have the chunk and lacks it.
fn lacking_node(last: &Placement, post: &Placement, chunk: u16, nodes: u8) -> Option<u8>
    requires last_chunk { chunk < last.now.chunks }
    requires last_nodes { last.now.nodes ≡ nodes }
    requires post_chunk { chunk < post.now.chunks }
    requires post_nodes { post.now.nodes ≡ nodes }
    ensures { result ≡ find (λ node. lacks post.now last.now (chunk, node)) (range_with_len 0 nodes) }
{
    (0..nodes).find(|&node| post.holds(chunk, node) && !last.holds(chunk, node))
}
