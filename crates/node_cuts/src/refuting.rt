//! The first set of nodes that refutes so many rounds.

ghost use Rattle.std.specs.Prelude.{◌≡◌, IfOk};
ghost use Rattle.node_cuts.specs.{declared.sets.Sets.Sets, Cuts.first_cut_of};

use crate::OutOfMemory;
use crate::alone::alone_groups;
use crate::cut::Cut;
use crate::holders::all_holders;
use crate::measure::measure_of;
use crate::members::node_sets;
use crate::sets::Sets;
use crate::widths::cover_by;
use collective_spec::Instance;
use schedule::Topology;
use std::alloc::Global;

/// The cut of the first listed set of nodes that refutes so many rounds: into which more chunks
/// have to come than can in `r` rounds. The listed sets are each one node, each two nodes, and all
/// nodes but these. `None` exactly where none refutes. The only error is `OutOfMemory`.
pub fn first_cut(
    alloc: Global,
    topology: &Topology,
    instance: &Instance,
    r: u8,
) -> Result<Option<Cut>, OutOfMemory>
    requires { instance.now.post.chunks ≡ instance.now.pre.chunks }
    ensures { IfOk result (λ cut. cut ≡ first_cut_of Sets.Listed topology.now instance.now.pre instance.now.post r) }
{
    let nodes = topology.nodes();
    let holders = all_holders(alloc, instance)?;
    let alone = alone_groups(alloc, topology)?;
    for set in &node_sets(alloc, Sets::Listed, nodes)? {
        let measure = measure_of(alloc, Sets::Listed, *set, topology, &alone, &holders)?;
        if measure.refutes(1, r) {
            let groups = cover_by(alloc, Sets::Listed, *set, topology, &alone)?;
            return Ok(Some(Cut::new(set.mask(nodes), groups, measure.need, measure.width)));
        }
    }
    Ok(None)
}
