ghost use Rattle.std.specs.Prelude.{◌≡◌, ◌+◌, ◌*◌, ◌<◌, ℕ, true, false, Option, IfSome};
ghost use Rattle.schedule.specs.Placed.{PlacementValue, IsPlacement, holds};
ghost use Rattle.collective_spec.specs.{Kinds.takes_root, Patterns.{PatternValue, IsPattern, IsAmong, copied}, Collectives.{IsSpec, chunks_in, fits_kind, instance_of, kind_in, spec_demand, spec_instance, spec_of}};

use crate::collective::Collective;
use crate::kind::Kind;
use crate::spec::Spec;

/// A reduction to a root is the inverse of the broadcast from it: they have one instance.
pub fn reduce_inverts_broadcast(root: u8, nodes: u8, c: u8)
    ensures { instance_of (record { kind = Kind.Reduce; root = root }) nodes c ≡ instance_of (record { kind = Kind.Broadcast; root = root }) nodes c }
{}

/// A reduction to scattered sums is the inverse of an allgather: they have one instance.
pub fn reducescatter_inverts_allgather(root: u8, nodes: u8, c: u8)
    ensures { instance_of (record { kind = Kind.Reducescatter; root = root }) nodes c ≡ instance_of (record { kind = Kind.Allgather; root = root }) nodes c }
{}

/// The root makes no difference to a kind that takes none.
pub fn root_counts_where_taken(kind: Kind, root: u8, other: u8, nodes: u8, c: u8)
    requires { takes_root kind ≡ false }
    ensures { instance_of (record { kind = kind; root = root }) nodes c ≡ instance_of (record { kind = kind; root = other }) nodes c }
{}

/// A chunk of a copy stands exactly where that chunk of the pattern does of which it is a copy.
pub fn copies_stand_where_the_pattern_does()
    ensures { (base c nodes : ℕ) (p : PlacementValue) (copy chunk node : ℕ) → chunk < base → copy < c → node < nodes
        → holds (copied base c nodes p) (copy * base + chunk, node) ≡ holds p (chunk, node) }
{}

/// At the chunk count 1 the placements of a pattern are as they were given.
pub fn one_copy_is_the_pattern()
    ensures { (p : PlacementValue) → IsPlacement p → copied p.chunks 1 p.nodes p ≡ p }
{}

/// What is asked for is placed among its chunks and the nodes.
pub fn what_is_asked_has_its_size()
    ensures chunks { (spec : Spec) (nodes c : ℕ) → (spec_instance spec nodes c).chunks ≡ chunks_in spec nodes c }
    ensures pre { (spec : Spec) (nodes c : ℕ) → IsAmong (chunks_in spec nodes c) nodes (spec_instance spec nodes c).pre }
    ensures post { (spec : Spec) (nodes c : ℕ) → IsAmong (chunks_in spec nodes c) nodes (spec_instance spec nodes c).post }
    ensures demand { (spec : Spec) (nodes c : ℕ) → IsAmong (chunks_in spec nodes c) nodes (spec_demand spec nodes c) }
{}

/// Where a pattern is given exactly for the kind that has one, what is asked for keeps the rules,
/// and has the kind.
pub fn what_fits_is_a_spec()
    ensures kind { (collective : Collective) (pattern : Option PatternValue) → fits_kind collective.kind pattern ≡ true
        → kind_in (spec_of collective pattern) ≡ collective.kind }
    ensures spec { (nodes : ℕ) (collective : Collective) (pattern : Option PatternValue) → fits_kind collective.kind pattern ≡ true
        → collective.root < nodes → IfSome pattern (IsPattern nodes) → IsSpec nodes (spec_of collective pattern) }
{}
