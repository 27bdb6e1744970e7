//! What the definitions give on small instances.

ghost use Rattle.std.specs.{Prelude.{◌≡◌, true, filter, Some, None, [], ◌∷◌}, List.range_with_len};
ghost use Rattle.schedule.specs.{Rows.{line_of_2, line_of_3, at_root, everywhere}, Judging.verdict_of};
ghost use Rattle.schedule.specs.declared.verdict.Verdict.TheVariants as verdict;
ghost use Rattle.cnf_formula.specs.Literals.{yes, no};
ghost use Rattle.send_encoding.specs.Variables.{map_of};
ghost use Rattle.collective_spec.specs.{declared.kind.Kind.Kind, Collectives.instance_of, Patterns.copied, Rows.{instance_on_three, two_given}};
ghost use Rattle.chunk_order.specs.{Alike.{Ordered, is_alike, watch_node}, Ordering.{class_of, is_least, next_pairs, order_clauses}, Rows.{in_turn, out_of_turn}};

/// All chunks of a broadcast are alike, and node 1 is the first to get them.
pub fn chunks_of_a_broadcast_are_alike()
    ensures class { class_of (at_root 3 3) (everywhere 3 3) 0 ≡ 0 ∷ 1 ∷ 2 ∷ [] }
    ensures leader { filter (is_least (at_root 3 3) (everywhere 3 3)) (range_with_len 0 3) ≡ 0 ∷ [] }
    ensures watch { watch_node (at_root 3 3) (everywhere 3 3) 2 ≡ Some 1 }
    ensures pairs { next_pairs (class_of (at_root 3 3) (everywhere 3 3) 0) ≡ (0, 1) ∷ (1, 2) ∷ [] }
{}

/// Two chunks of node 0 that go to all nodes of the line of 3 in three steps: after each, the first
/// is at node 1 where the second is.
pub fn two_chunks_over_the_line_of_3()
    ensures { order_clauses (map_of line_of_3 (at_root 2 3) 3) (at_root 2 3) (everywhere 2 3)
        ≡ (no 18 ∷ yes 6 ∷ []) ∷ (no 19 ∷ yes 7 ∷ []) ∷ (no 20 ∷ yes 8 ∷ []) ∷ [] }
{}

/// Three chunks and two steps: each chunk is put in order with the next.
pub fn each_chunk_with_the_next()
    ensures { order_clauses (map_of line_of_3 (at_root 3 3) 2) (at_root 3 3) (everywhere 3 3)
        ≡ (no 14 ∷ yes 5 ∷ []) ∷ (no 15 ∷ yes 6 ∷ []) ∷ (no 23 ∷ yes 14 ∷ []) ∷ (no 24 ∷ yes 15 ∷ []) ∷ [] }
{}

/// Two chunks of each of three nodes are gathered at node 1: those of one node are alike, and those
/// of node 1 have no order, since they are there.
pub fn chunks_that_are_there_have_no_order()
    ensures class { class_of (instance_on_three Kind.Gather 2).pre (instance_on_three Kind.Gather 2).post 0 ≡ 0 ∷ 3 ∷ [] }
    ensures leaders { filter (is_least (instance_on_three Kind.Gather 2).pre (instance_on_three Kind.Gather 2).post) (range_with_len 0 6) ≡ 0 ∷ 1 ∷ 2 ∷ [] }
    ensures alike { is_alike (instance_on_three Kind.Gather 2).pre (instance_on_three Kind.Gather 2).post 1 4 ≡ true }
    ensures there { watch_node (instance_on_three Kind.Gather 2).pre (instance_on_three Kind.Gather 2).post 1 ≡ None }
    ensures clauses { order_clauses (map_of line_of_3 (instance_on_three Kind.Gather 2).pre 1) (instance_on_three Kind.Gather 2).pre (instance_on_three Kind.Gather 2).post
        ≡ (no 22 ∷ yes 4 ∷ []) ∷ (no 34 ∷ yes 16 ∷ []) ∷ [] }
{}

/// Two copies of a pattern of two chunks, of which the second has nowhere to go: each is alike with
/// its copy.
pub fn copies_are_alike()
    ensures { order_clauses (map_of line_of_3 (copied 2 2 3 two_given.before) 1) (copied 2 2 3 two_given.before) (copied 2 2 3 two_given.after)
        ≡ (no 18 ∷ yes 6 ∷ []) ∷ [] }
{}

/// No two chunks of an all-to-all on two nodes are alike.
pub fn chunks_of_an_alltoall_differ()
    ensures { let instance = instance_of (record { kind = Kind.Alltoall; root = 0 }) 2 2 in
        order_clauses (map_of line_of_2 instance.pre 1) instance.pre instance.post ≡ [] }
{}

/// A schedule that brings the second chunk to the watch node before the first is not ordered.
pub fn out_of_turn_is_not_ordered()
    ensures { Ordered (at_root 2 3) (everywhere 2 3) out_of_turn → ⊥ }
{}

/// One that brings the first before the second is. Both solve the broadcast.
pub fn in_turn_is_ordered()
    ensures ordered { Ordered (at_root 2 3) (everywhere 2 3) in_turn }
    ensures first { verdict_of line_of_3 (at_root 2 3) (everywhere 2 3) in_turn ≡ verdict.Solves }
    ensures second { verdict_of line_of_3 (at_root 2 3) (everywhere 2 3) out_of_turn ≡ verdict.Solves }
{}
