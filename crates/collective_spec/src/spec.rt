ghost use Rattle.std.specs.Prelude.{◌≡◌, ◌≢◌, ◌≤◌, IsTrue, IfOk};
ghost use Rattle.collective_spec.specs.{Kinds.allows, Collectives.{IsSpec, kind_in, adds_up, chunks_in, spec_of, spec_instance, spec_demand}};

use crate::OutOfMemory;
use crate::collective::Collective;
use crate::instance::{Instance, chunks_of, demand_of, instance_of, reduces};
use crate::kind::Kind;
use crate::pattern::{Pattern, copied};
use schedule::Placement;
use std::alloc::Global;

/// What a collective asks for: one of the standard kinds with its root, or what users give. The
/// kind of a standard one is not `Kind::Custom`.
#[derive(Clone, Debug, Drop)]
pub enum Spec {
    Standard(Collective),
    Custom(Pattern),
}

impl Spec {
    /// The collective where no pattern is given, and else the pattern.
    pub fn of(collective: Collective, pattern: Option<Pattern>) -> Spec
        ensures { result ≡ spec_of collective pattern }
    {
        match pattern {
            None => Spec::Standard(collective),
            Some(pattern) => Spec::Custom(pattern),
        }
    }

    /// The kind.
    pub fn kind(&self) -> Kind
        ensures { result ≡ kind_in self.now }
    {
        match self {
            Spec::Standard(collective) => collective.kind,
            Spec::Custom(_) => Kind::Custom,
        }
    }

    /// Whether the collective adds up what the nodes contribute.
    pub fn adds_up(&self) -> bool
        ensures { result ≡ adds_up self.now }
    {
        match self {
            Spec::Standard(collective) => reduces(collective.kind),
            Spec::Custom(_) => false,
        }
    }

    /// The number of all chunks on so many nodes where the chunk count is `c`.
    pub fn chunks(&self, nodes: u8, c: u8) -> u16
        ensures { result ≡ chunks_in self.now nodes c }
    {
        match self {
            Spec::Standard(collective) => chunks_of(collective.kind, nodes, c),
            Spec::Custom(pattern) => u16::from(pattern.base()) * u16::from(c),
        }
    }
}

/// The instance of what is asked for, on so many nodes and with the chunk count `c`, at most 16. Of
/// a reduction it is that of the copying collective of which it is the inverse. The only error is
/// `OutOfMemory`.
pub fn spec_instance(alloc: Global, spec: &Spec, nodes: u8, c: u8) -> Result<Instance, OutOfMemory>
    requires spec { IsSpec nodes spec.now }
    requires allowed { IsTrue (allows (kind_in spec.now) nodes c) }
    requires single { kind_in spec.now ≢ Kind.Allreduce }
    requires count { c ≤ 16 }
    ensures { IfOk result (λ instance. instance ≡ spec_instance spec.now nodes c) }
{
    match spec {
        Spec::Standard(collective) => instance_of(alloc, *collective, nodes, c),
        Spec::Custom(pattern) => {
            let pre = copied(alloc, pattern.before(), pattern.base(), c)?;
            let post = copied(alloc, pattern.after(), pattern.base(), c)?;
            Ok(Instance {
                chunks: pre.chunks(),
                pre,
                post,
            })
        }
    }
}

/// The pairs of a chunk and a node that have to be reached: where the chunks have to be after, or
/// where the sums have to be. The chunk count `c` is from 1 to 16. The only error is `OutOfMemory`.
pub fn spec_demand(alloc: Global, spec: &Spec, nodes: u8, c: u8) -> Result<Placement, OutOfMemory>
    requires spec { IsSpec nodes spec.now }
    requires some { 1 ≤ c }
    requires count { c ≤ 16 }
    ensures { IfOk result (λ demand. demand ≡ spec_demand spec.now nodes c) }
{
    match spec {
        Spec::Standard(collective) => demand_of(alloc, *collective, nodes, c),
        Spec::Custom(pattern) => copied(alloc, pattern.after(), pattern.base(), c),
    }
}
