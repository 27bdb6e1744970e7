//! What the definitions give on small collectives.

ghost use Rattle.std.specs.Prelude.{◌≡◌, true, false, [], ◌∷◌};
ghost use Rattle.collective_spec.specs.{Kinds.allows, Patterns.copied, Collectives.{spec_demand, spec_instance}, Rows.{demand_on_three, everywhere, instance_on_three, moves, on_three, rooted, scattered, two_given}};

use crate::kind::Kind;
use crate::spec::Spec;

/// Where the chunks of collectives that copy are on three nodes, before and after.
pub fn copying_on_three_nodes()
    ensures broadcast { instance_on_three Kind.Broadcast 2 ≡ moves 2 ((0, 1) ∷ (1, 1) ∷ []) ((0, 0) ∷ (0, 1) ∷ (0, 2) ∷ (1, 0) ∷ (1, 1) ∷ (1, 2) ∷ []) }
    ensures gather { instance_on_three Kind.Gather 1 ≡ moves 3 scattered rooted }
    ensures allgather { instance_on_three Kind.Allgather 1 ≡ moves 3 scattered everywhere }
    ensures scatter { instance_on_three Kind.Scatter 1 ≡ moves 3 rooted scattered }
    ensures alltoall { instance_on_three Kind.Alltoall 3
        ≡ moves 9 ((0, 0) ∷ (1, 1) ∷ (2, 2) ∷ (3, 0) ∷ (4, 1) ∷ (5, 2) ∷ (6, 0) ∷ (7, 1) ∷ (8, 2) ∷ [])
        ((0, 0) ∷ (1, 0) ∷ (2, 0) ∷ (3, 1) ∷ (4, 1) ∷ (5, 1) ∷ (6, 2) ∷ (7, 2) ∷ (8, 2) ∷ []) }
{}

/// What a reduction inverts, and where it has to have its sums.
pub fn adding_on_three_nodes()
    ensures reduce { instance_on_three Kind.Reduce 2 ≡ instance_on_three Kind.Broadcast 2 }
    ensures reducescatter { instance_on_three Kind.Reducescatter 1 ≡ moves 3 scattered everywhere }
    ensures reduced { demand_on_three Kind.Reduce 1 ≡ on_three 1 ((0, 1) ∷ []) }
    ensures reducescattered { demand_on_three Kind.Reducescatter 1 ≡ on_three 3 scattered }
    ensures allreduced { demand_on_three Kind.Allreduce 1 ≡ on_three 3 everywhere }
{}

/// Two chunks at three nodes, copied twice; and a chunk that is to go from node 0 to node 2.
pub fn patterns_are_copied()
    ensures twice { copied 2 2 3 (record { chunks = 2; nodes = 3; pairs = (0, 0) ∷ (1, 1) ∷ (1, 2) ∷ [] })
        ≡ record { chunks = 4; nodes = 3; pairs = (0, 0) ∷ (1, 1) ∷ (1, 2) ∷ (2, 0) ∷ (3, 1) ∷ (3, 2) ∷ [] } }
    ensures once { spec_instance (Spec.Custom (record { base = 1; before = record { chunks = 1; nodes = 3; pairs = (0, 0) ∷ [] }; after = record { chunks = 1; nodes = 3; pairs = (0, 2) ∷ [] } })) 3 1
        ≡ record { chunks = 1; pre = record { chunks = 1; nodes = 3; pairs = (0, 0) ∷ [] }; post = record { chunks = 1; nodes = 3; pairs = (0, 2) ∷ [] } } }
{}

/// A pattern of two chunks, copied: chunk 1 of the second copy is the last of four.
pub fn a_pattern_is_copied()
    ensures instance { spec_instance (Spec.Custom two_given) 3 2
        ≡ moves 4 ((0, 0) ∷ (1, 1) ∷ (1, 2) ∷ (2, 0) ∷ (3, 1) ∷ (3, 2) ∷ []) ((0, 2) ∷ (2, 2) ∷ []) }
    ensures demand { spec_demand (Spec.Custom two_given) 3 2 ≡ on_three 4 ((0, 2) ∷ (2, 2) ∷ []) }
{}

/// An all-to-all needs as many chunks as nodes, or a multiple; the others need one.
pub fn chunk_counts()
    ensures none { allows Kind.Allgather 4 0 ≡ false }
    ensures some { allows Kind.Allgather 4 3 ≡ true }
    ensures no_multiple { allows Kind.Alltoall 4 0 ≡ false }
    ensures fewer { allows Kind.Alltoall 4 1 ≡ false }
    ensures as_many { allows Kind.Alltoall 4 4 ≡ true }
    ensures between { allows Kind.Alltoall 4 6 ≡ false }
    ensures twice { allows Kind.Alltoall 4 8 ≡ true }
    ensures summed { allows Kind.Allreduce 4 1 ≡ true }
    ensures none_given { allows Kind.Custom 4 0 ≡ false }
    ensures given { allows Kind.Custom 4 3 ≡ true }
{}
