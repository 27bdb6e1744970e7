//! What has to come into all sets of nodes and what can, told once for a topology and a collective.

ghost use Rattle.std.specs.{Prelude.{◌≡◌, ◌≢◌, ◌<◌, true, length, IfOk}, Option.is_some};
ghost use Rattle.schedule.specs.Links.{TopologyValue, IsTopology};
ghost use Rattle.collective_spec.specs.{declared.spec.Spec.Spec, Kinds.allows, Collectives.{IsSpec, kind_in, spec_instance}};
ghost use Rattle.node_cuts.specs.{declared.sets.Sets.Sets, Cuts.first_cut_of, Floors.{floor_of, least_count}, Tables.{IsTableOf, cut_at}};

use crate::OutOfMemory;
use crate::alone::alone_groups;
use crate::cut::Cut;
use crate::floor::{Floor, fraction_of, greater_of, greatest};
use crate::holders::all_holders;
use crate::measure::{Measure, measure_of};
use crate::members::node_sets;
use crate::sets::Sets;
use crate::widths::cover_by;
use collective_spec::{Kind, Spec, spec_instance};
use schedule::Topology;
use std::alloc::Global;
use std::marker::Model;

/// The least chunk count that such a collective may have.
fn least_count(kind: Kind, nodes: u8) -> u8
    ensures { result ≡ least_count kind nodes }
{
    match kind {
        Kind::Alltoall => nodes,
        Kind::Broadcast
        | Kind::Gather
        | Kind::Allgather
        | Kind::Scatter
        | Kind::Reduce
        | Kind::Reducescatter
        | Kind::Allreduce
        | Kind::Custom => 1,
    }
}

/// The same topology.
fn copy_of(topology: &Topology) -> Result<Topology, OutOfMemory>
    ensures { IfOk result (λ copy. copy ≡ topology.now) }
{
    Ok(topology.clone()?)
}

/// What has to come into each set of nodes at the least chunk count, and what can. At each other
/// count as many times as much has to come in, over the same groups.
#[derive(Drop)]
pub struct CutTable {
    sets: Sets,
    topology: Topology,
    least: u8,
    measures: Vec<Measure>,
    floor: Floor,
}

impl Model for CutTable {
    ghost use Rattle.node_cuts.specs.Tables.{TableValue, IsTable};

    ghost Value = { TableValue };

    ghost view = { λ t. record { sets = t.sets; topology = t.topology; least = t.least; measures = t.measures.items; floor = t.floor } };

    ghost invariant = { λ t. IsTable (record { sets = t.sets; topology = t.topology; least = t.least; measures = t.measures.items; floor = t.floor }) };
}

impl CutTable {
    /// The table of a topology and a collective, for these sets of nodes. The only error is
    /// `OutOfMemory`.
    pub fn new(
        alloc: Global,
        topology: &Topology,
        spec: &Spec,
        sets: Sets,
    ) -> Result<CutTable, OutOfMemory>
        requires spec { IsSpec topology.now.nodes spec.now }
        requires single { kind_in spec.now ≢ Kind.Allreduce }
        ensures table { IfOk result (λ table. IsTableOf sets topology.now spec.now table) }
        ensures limits { IsTopology topology.now }
    {
        let nodes = topology.nodes();
        let least = least_count(spec.kind(), nodes);
        let instance = spec_instance(alloc, spec, nodes, least)?;
        let holders = all_holders(alloc, &instance)?;
        let alone = alone_groups(alloc, topology)?;
        let mut measures = Vec::new(alloc);
        let mut best = None;
        for set in &node_sets(alloc, sets, nodes)? {
            let measure = measure_of(alloc, sets, *set, topology, &alone, &holders)?;
            best = greater_of(best, fraction_of(*set, nodes, measure, least));
            measures.push(measure)?;
        }
        Ok(CutTable {
            sets,
            topology: copy_of(topology)?,
            least,
            measures,
            floor: greatest(best),
        })
    }

    /// Whether one of the sets refutes `r` rounds of the collective's instance at an allowed chunk
    /// count `c`. It costs a comparison.
    pub fn refutes(&self, c: u8, r: u8) -> bool
        ensures { (sets : Sets) (t : TopologyValue) (spec : Spec) → IsTableOf sets t spec self.now → 0 < t.nodes → allows (kind_in spec) t.nodes c ≡ true
            → result ≡ is_some (first_cut_of sets t (spec_instance spec t.nodes c).pre (spec_instance spec t.nodes c).post r) }
    {
        u64::from(self.floor.above) * u64::from(c) > u64::from(self.floor.below) * u64::from(r)
    }

    /// The cut of the first of the sets that refutes `r` rounds of the collective's instance at an
    /// allowed chunk count `c`. `None` exactly where none refutes. The only error is `OutOfMemory`.
    pub fn first_cut(&self, c: u8, r: u8) -> Result<Option<Cut>, OutOfMemory>
        ensures { IfOk result (λ cut. (sets : Sets) (t : TopologyValue) (spec : Spec) → IsTableOf sets t spec self.now → 0 < t.nodes → allows (kind_in spec) t.nodes c ≡ true
            → cut ≡ first_cut_of sets t (spec_instance spec t.nodes c).pre (spec_instance spec t.nodes c).post r) }
    {
        let times = c / self.least;
        for place in 0..self.measures.len() {
            if self.measures[place].refutes(times, r) {
                return Ok(Some(self.cut_at(place, times)?));
            }
        }
        Ok(None)
    }

    /// The cut of the set at this place, into which so many times as much has to come.
    fn cut_at(&self, place: usize, times: u8) -> Result<Cut, OutOfMemory>
        requires { place < length self.now.measures }
        ensures { IfOk result (λ cut. cut ≡ cut_at self.now place times) }
    {
        let alloc = *self.measures.allocator();
        let nodes = self.topology.nodes();
        let set = node_sets(alloc, self.sets, nodes)?[place];
        let alone = alone_groups(alloc, &self.topology)?;
        let groups = cover_by(alloc, self.sets, set, &self.topology, &alone)?;
        let measure = self.measures[place];
        Ok(Cut::new(
            set.mask(nodes),
            groups,
            measure.need * u32::from(times),
            measure.width,
        ))
    }

    /// The floor: the fraction of the first of the sets whose fraction is greatest, and 0 over 1
    /// where nothing has to come into any.
    pub fn floor(&self) -> Floor
        ensures { (sets : Sets) (t : TopologyValue) (spec : Spec) → IsTableOf sets t spec self.now → result ≡ floor_of sets t spec }
    {
        self.floor
    }
}
