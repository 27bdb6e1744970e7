//! What an engine settles the candidates of.

ghost use Rattle.std.specs.Prelude.{◌≡◌, ◌≢◌, ◌≤◌, IfOk};
ghost use Rattle.schedule.specs.Links.{IsTopology};
ghost use Rattle.collective_spec.specs.Collectives.{IsSpec, kind_in};
ghost use Rattle.round_encoding.specs.Candidates.{size_limit};
ghost use Rattle.candidate_formula.specs.{Questions.{IsSmallQuestion, copying_question}, Sizes.size_of};
ghost use Rattle.candidate_solver.specs.Single.{IsSmallQuestion-prop};

use candidate_order::Limits;
use cnf_formula::OutOfMemory;
use collective_spec::{Kind, Spec};
use schedule::Topology;

/// The same topology, which is in the ranges that a topology has.
fn copy_of_topology(topology: &Topology) -> Result<Topology, OutOfMemory>
    ensures copy { IfOk result (λ copy. copy ≡ topology.now) }
    ensures limits { IsTopology topology.now }
{
    // This says that it is in these ranges.
    let _nodes = topology.nodes();
    Ok(topology.clone()?)
}

/// The same collective.
fn copy_of_spec(spec: &Spec) -> Result<Spec, OutOfMemory>
    ensures { IfOk result (λ copy. copy ≡ spec.now) }
{
    Ok(spec.clone()?)
}

/// Links, a collective and limits. Of a reduction the copying collective is meant of which it is
/// the inverse, so that the links are then those turned round. The formula of each candidate within
/// the limits is small.
#[derive(Drop)]
pub struct Question {
    pub topology: Topology,
    pub spec: Spec,
    pub limits: Limits,
    pub ghost small: { IsSmallQuestion (copying_question topology spec limits) } by { IsSmallQuestion-prop (copying_question topology spec limits) },
}

impl Question {
    /// The candidates within the limits, of a collective over these links. The only error is
    /// `OutOfMemory`.
    pub fn new(topology: &Topology, spec: &Spec, limits: Limits) -> Result<Question, OutOfMemory>
        requires spec { IsSpec topology.now.nodes spec.now }
        requires single { kind_in spec.now ≢ Kind.Allreduce }
        requires size { size_of (record { topology = topology.now; spec = spec.now; limits = limits }) ≤ size_limit }
        ensures topology { IfOk result (λ q. q.topology ≡ topology.now) }
        ensures spec { IfOk result (λ q. q.spec ≡ spec.now) }
        ensures limits { IfOk result (λ q. q.limits ≡ limits) }
    {
        // This says that the limits are in their ranges.
        let _conflicts = limits.conflicts();
        let topology = copy_of_topology(topology)?;
        let spec = copy_of_spec(spec)?;
        Ok(Question {
            topology,
            spec,
            limits,
        })
    }
}
