//! The links over which a collective is searched.

ghost use Rattle.std.specs.{Prelude.{◌≡◌, false, IfOk, IsOk}, Cow.cow_value};
ghost use Rattle.collective_spec.specs.Collectives.{adds_up};
ghost use Rattle.candidate_order.specs.Ranges.{LimitsValue};
ghost use Rattle.candidate_formula.specs.{Formulas.searched_links, Sizes.size_of};

use crate::OutOfMemory;
use collective_spec::Spec;
use schedule::Topology;
use std::borrow::Cow;

/// The links over which an engine has to search for a collective on the topology: those links
/// turned round for a reduction, which is found as the inverse of what copies, and else the links
/// as they are. The only error is `OutOfMemory`, which a collective that copies needs none of.
#[tactic(auto, using(crate::proofs::TurnedSize::turned_size))]
pub fn links_to_search<'a>(
    topology: &'a Topology,
    spec: &Spec,
) -> Result<Cow<'a, Topology>, OutOfMemory>
    ensures links { IfOk result (λ links. cow_value links ≡ searched_links topology.now spec.now) }
    ensures nodes { IfOk result (λ links. (cow_value links).nodes ≡ topology.now.nodes) }
    ensures size { IfOk result (λ links. (limits : LimitsValue)
        → size_of (record { topology = cow_value links; spec = spec.now; limits = limits }) ≡ size_of (record { topology = topology.now; spec = spec.now; limits = limits })) }
    ensures lent { adds_up spec.now ≡ false → IsOk result }
{
    if spec.adds_up() {
        return Ok(Cow::Owned(topology.reversed()?));
    }
    Ok(Cow::Borrowed(topology))
}

/// The links over which an engine has to search, as a value of their own. The only error is
/// `OutOfMemory`.
pub fn own_links_to_search(topology: &Topology, spec: &Spec) -> Result<Topology, OutOfMemory>
    ensures { IfOk result (λ links. links ≡ searched_links topology.now spec.now) }
{
    links_to_search(topology, spec)?.into_owned()
}
