//! The floor: how many rounds each schedule has at least for its chunk count.

ghost use Rattle.std.specs.{Prelude.{◌≡◌, ◌≢◌, ◌*◌, ◌≤◌, ◌⊎◌, Some, IfOk}, Option.unwrap_or};
ghost use Rattle.collective_spec.specs.Collectives.{IsSpec, kind_in};
ghost use Rattle.node_cuts.specs.{declared.sets.Sets.Sets, Floors.{exceeds, floor_of, greater_of, nothing_over_1}, Sides.mask_of, inner.Listed.members, Tables.{IsLow, IsSmall}};

use crate::OutOfMemory;
use crate::measure::Measure;
use crate::members::Members;
use crate::sets::Sets;
use crate::table::CutTable;
use collective_spec::{Kind, Spec};
use schedule::Topology;
use std::alloc::Global;

/// A fraction, and the set of nodes that it is of: bit n stands for node n.
#[derive(Clone, Copy, PartialEq, Eq)]
pub struct Floor {
    /// How many chunks have to come into the set at the least chunk count.
    pub above: u32,
    /// How many can in one round, times that count; where it is 0, no schedule solves.
    pub below: u32,
    /// The nodes of the set; 0 where nothing has to come into any set that is
    /// looked at.
    pub nodes: u16,
}

/// Whether the first fraction is greater. Something over 0 is greater than all over another number.
fn exceeds(first: Floor, second: Floor) -> bool
    ensures { result ≡ exceeds first second }
{
    u64::from(first.above) * u64::from(second.below)
        > u64::from(second.above) * u64::from(first.below)
}

/// The fraction of a set with this measure, with its width times the least chunk count below.
pub(crate) fn fraction_of(set: Members, nodes: u8, measure: Measure, least: u8) -> Floor
    requires nodes { nodes ≤ 16 }
    requires small { IsSmall measure }
    requires least { least ≤ 16 }
    ensures fraction { result ≡ record { above = measure.need; below = measure.width * least; nodes = mask_of nodes (members set) } }
    ensures low { IsLow result }
{
    Floor {
        above: measure.need,
        below: measure.width * u32::from(least),
        nodes: set.mask(nodes),
    }
}

/// The greater of the best fraction so far and the next. Of two that are as great it is the best so
/// far, and a fraction of nothing is not taken.
pub(crate) fn greater_of(best: Option<Floor>, next: Floor) -> Option<Floor>
    ensures greater { result ≡ greater_of best next }
    ensures either { (result ≡ best) ⊎ (result ≡ Some next) }
{
    if next.above == 0 {
        return best;
    }
    match best {
        None => Some(next),
        Some(floor) => {
            if exceeds(next, floor) {
                Some(next)
            } else {
                Some(floor)
            }
        }
    }
}

/// The best fraction, and 0 over 1 where there is none.
pub(crate) fn greatest(best: Option<Floor>) -> Floor
    ensures { result ≡ unwrap_or best nothing_over_1 }
{
    best.unwrap_or(Floor {
        above: 0,
        below: 1,
        nodes: 0,
    })
}

/// The floor: the fraction of the first listed set of nodes whose fraction is greatest, where the
/// fraction is what has to come into the set at the least chunk count that the collective may have,
/// over what can in one round times that count. It is 0 over 1 where nothing has to come into any
/// listed set. For each schedule that solves at any chunk count, its rounds times `below` are at
/// least `above` times that count. The only error is `OutOfMemory`.
pub fn floor_of(alloc: Global, topology: &Topology, spec: &Spec) -> Result<Floor, OutOfMemory>
    requires spec { IsSpec topology.now.nodes spec.now }
    requires single { kind_in spec.now ≢ Kind.Allreduce }
    ensures { IfOk result (λ floor. floor ≡ floor_of Sets.Listed topology.now spec.now) }
{
    let table = CutTable::new(alloc, topology, spec, Sets::Listed)?;
    Ok(table.floor())
}
