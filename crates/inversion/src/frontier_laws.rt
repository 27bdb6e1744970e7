//! What the frontier of a reduction is made of: that of the collective that copies, over the links
//! turned round.

ghost use Rattle.std.specs.Prelude.{◌≡◌, ◌≢◌, ◌↔◌, ℕ, true};
ghost use Rattle.collective_spec.specs.{Collectives.{IsSpec, adds_up, chunks_in, kind_in}, Kinds.allows};
ghost use Rattle.candidate_order.specs.{Frontiers.{QuestionValue, FrontierValue, IsSolvable, RightFrontier, Searched, instance_for}, Copied.{copied_question, copied_spec}};
ghost use Rattle.inversion.specs.Inverted.{inverted_frontier};

use candidate_order::Candidate;
use collective_spec::{Kind, Spec};

/// A right and searched frontier of the collective that copies, over the links turned round, is one
/// of the reduction, with each schedule inverted.
pub fn an_inverted_frontier_is_right()
    ensures right { (q : QuestionValue) (f : FrontierValue) → adds_up q.spec ≡ true → IsSpec q.topology.nodes q.spec
        → RightFrontier (copied_question q) f → Searched (copied_question q) f → RightFrontier q (inverted_frontier f) }
    ensures searched { (q : QuestionValue) (f : FrontierValue) → adds_up q.spec ≡ true → IsSpec q.topology.nodes q.spec
        → RightFrontier (copied_question q) f → Searched (copied_question q) f → Searched q (inverted_frontier f) }
{}

/// A reduction is solvable in so many steps and rounds exactly where the collective that copies is,
/// over the links turned round.
pub fn a_reduction_is_solvable_where_its_copy_is()
    ensures { (q : QuestionValue) (x : Candidate) → adds_up q.spec ≡ true → kind_in q.spec ≢ Kind.Allreduce → IsSpec q.topology.nodes q.spec
        → IsSolvable q x ↔ IsSolvable (copied_question q) x }
{}

/// The collective that copies has the instance, the chunks and the chunk counts of the reduction.
#[tactic(auto, using(crate::proofs::Copied::same_instance, crate::proofs::Copied::same_sizes))]
pub fn the_copy_has_the_same_instance()
    ensures instance { (q : QuestionValue) (x : Candidate) → kind_in q.spec ≢ Kind.Allreduce → instance_for (copied_question q) x ≡ instance_for q x }
    ensures counts { (spec : Spec) (nodes c : ℕ) → (chunks_in (copied_spec spec) nodes c ≡ chunks_in spec nodes c) × (allows (kind_in (copied_spec spec)) nodes c ≡ allows (kind_in spec) nodes c) }
{}
