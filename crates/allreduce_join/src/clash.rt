//! Chunks that come to a node twice in a step that copies.

ghost use Rattle.std.specs.{Prelude.{◌≡◌, ◌<◌, find, nat_le, count_by, IfOk}, List.range_with_len};
ghost use Rattle.schedule.specs.{Placed.{all_pairs, holds, placed}, Sends.IsInRange, Summing.goes_to, JoinedRuns.{first_clash, is_clash}};

use schedule::{OutOfMemory, Placement, Schedule};
use std::alloc::Global;

/// The first step after `adding`, and the first chunk and node in it, to which the chunk comes
/// twice. The only error is `OutOfMemory`.
pub(crate) fn first_clash(
    alloc: Global,
    chunks: u16,
    nodes: u8,
    schedule: &Schedule,
    adding: u8,
) -> Result<Option<(u8, u16, u8)>, OutOfMemory>
    requires { IsInRange chunks nodes schedule.now }
    ensures { IfOk result (λ clash. clash ≡ first_clash chunks nodes schedule.now adding) }
{
    for index in 0..schedule.rounds().len() as u8 {
        let step = index + 1;
        if let Some((chunk, node)) = clash_at(alloc, chunks, nodes, schedule, adding, step)? {
            return Ok(Some((step, chunk, node)));
        }
    }
    Ok(None)
}

/// The first chunk and node of a step, where the step copies and the chunk comes twice.
fn clash_at(
    alloc: Global,
    chunks: u16,
    nodes: u8,
    schedule: &Schedule,
    adding: u8,
    step: u8,
) -> Result<Option<(u16, u8)>, OutOfMemory>
    requires { IsInRange chunks nodes schedule.now }
    ensures { IfOk result (λ clash. clash ≡ find (λ pair. is_clash schedule.now adding (step, pair.0, pair.1)) (all_pairs chunks nodes)) }
{
    if step <= adding {
        return Ok(None);
    }
    let twice = met_twice(alloc, chunks, nodes, schedule, step)?;
    Ok(first_pair(&twice, chunks))
}

/// The pairs of a chunk and a node to which the chunk comes more than once in a step.
fn met_twice(
    alloc: Global,
    chunks: u16,
    nodes: u8,
    schedule: &Schedule,
    step: u8,
) -> Result<Placement, OutOfMemory>
    requires { IsInRange chunks nodes schedule.now }
    ensures { IfOk result (λ p. p ≡ placed chunks nodes (λ pair. nat_le 2 (count_by (goes_to step pair) schedule.now.sends))) }
{
    let mut met = Placement::empty(alloc, chunks, nodes)?;
    let mut twice = Placement::empty(alloc, chunks, nodes)?;
    for hop in schedule.sends_of(step) {
        if met.holds(hop.chunk, hop.to) {
            twice.insert(hop.chunk, hop.to);
        } else {
            met.insert(hop.chunk, hop.to);
        }
    }
    Ok(twice)
}

/// The first pair of a placement of so many chunks.
#[tactic(auto, using(schedule::proofs::Grids::find_here, schedule::proofs::Grids::find_later, schedule::proofs::Grids::find_nowhere, schedule::proofs::Grids::rows_start))]
fn first_pair(placement: &Placement, chunks: u16) -> Option<(u16, u8)>
    requires { placement.now.chunks ≡ chunks }
    ensures { result ≡ find (holds placement.now) (all_pairs chunks placement.now.nodes) }
{
    let nodes = placement.nodes();
    for chunk in 0..chunks {
        if let Some(node) = first_node(placement, chunk, nodes) {
            return Some((chunk, node));
        }
    }
    None
}

/// The first of so many nodes that has the chunk.
fn first_node(placement: &Placement, chunk: u16, nodes: u8) -> Option<u8>
    requires chunk { chunk < placement.now.chunks }
    requires nodes { placement.now.nodes ≡ nodes }
    ensures { result ≡ find (λ node. holds placement.now (chunk, node)) (range_with_len 0 nodes) }
{
    (0..nodes).find(|&node| placement.holds(chunk, node))
}
