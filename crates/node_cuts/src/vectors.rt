//! What the definitions give on small questions.

ghost use Rattle.std.specs.Prelude.{◌≡◌, Some, None, [], ◌∷◌, map};
ghost use Rattle.schedule.specs.Rows.{at_root, back_of_2, everywhere, line_of_3, ring_of_4, twice_grouped, one_node};
ghost use Rattle.collective_spec.specs.declared.kind.Kind.{Kind};
ghost use Rattle.node_cuts.specs.{declared.sets.Sets.Sets, Sides.{has_bit, mask_of, node_sets}, Cuts.{cover, cover_back, cover_by, cover_greedily, first_cut_of, need_of, width_by}};
ghost use Rattle.node_cuts.specs.Rows.{cut, cut_at, floor_at, nowhere, one_for_all, switch_in_first, switch_out_first, two_pairs};

/// One node, two nodes, and all but these.
pub fn sets_of_three_nodes()
    ensures { map (mask_of 3) (node_sets Sets.Listed 3) ≡ 1 ∷ 2 ∷ 4 ∷ 3 ∷ 5 ∷ 6 ∷ 6 ∷ 5 ∷ 3 ∷ 4 ∷ 2 ∷ 1 ∷ [] }
{}

/// An allgather on the ring of 4: three chunks of each node have to come to node 0 over two links,
/// which take three rounds for two chunks of each.
pub fn an_allgather_on_the_ring_of_4()
    ensures floor { floor_at Sets.Listed ring_of_4 Kind.Allgather ≡ record { above = 3; below = 2; nodes = 1 } }
    ensures one_round { cut_at Sets.Listed ring_of_4 Kind.Allgather 1 1 ≡ Some (cut 1 (2 ∷ 6 ∷ []) 3 2) }
    ensures two_chunks { cut_at Sets.Listed ring_of_4 Kind.Allgather 1 2 ≡ Some (cut 1 (2 ∷ 6 ∷ []) 6 2) }
    ensures two_rounds { cut_at Sets.Listed ring_of_4 Kind.Allgather 2 2 ≡ Some (cut 1 (2 ∷ 6 ∷ []) 6 2) }
    ensures enough_for_one { cut_at Sets.Listed ring_of_4 Kind.Allgather 2 1 ≡ None }
    ensures enough_for_two { cut_at Sets.Listed ring_of_4 Kind.Allgather 3 2 ≡ None }
{}

/// Nothing can come to node 1, to which no link leads.
pub fn a_broadcast_without_a_link()
    ensures floor { floor_at Sets.Listed back_of_2 Kind.Broadcast ≡ record { above = 1; below = 0; nodes = 2 } }
    ensures one_round { cut_at Sets.Listed back_of_2 Kind.Broadcast 1 1 ≡ Some (cut 2 [] 1 0) }
    ensures two_rounds { cut_at Sets.Listed back_of_2 Kind.Broadcast 2 1 ≡ Some (cut 2 [] 1 0) }
{}

/// Two nodes next to each other get the most chunks of an all-to-all over their links, and all
/// nodes but the root those of a scatter.
pub fn sets_of_more_nodes_on_the_ring_of_4()
    ensures two { floor_at Sets.Listed ring_of_4 Kind.Alltoall ≡ record { above = 4; below = 8; nodes = 3 } }
    ensures all_but_one { floor_at Sets.Listed ring_of_4 Kind.Scatter ≡ record { above = 3; below = 2; nodes = 14 } }
    ensures cut { cut_at Sets.Listed ring_of_4 Kind.Scatter 1 1 ≡ Some (cut 14 (0 ∷ 1 ∷ []) 3 2) }
{}

/// A link that stands in two groups is covered by the first.
pub fn a_cover_takes_the_first_of_two_groups()
    ensures floor { floor_at Sets.Listed twice_grouped Kind.Broadcast ≡ record { above = 1; below = 2; nodes = 2 } }
    ensures enough { cut_at Sets.Listed twice_grouped Kind.Broadcast 1 2 ≡ None }
    ensures too_many { cut_at Sets.Listed twice_grouped Kind.Broadcast 1 3 ≡ Some (cut 2 (0 ∷ []) 3 2) }
{}

/// Nothing has to come to the root of a broadcast, or to a set with the root; and where nothing has
/// to come into any set, the floor is nothing over 1.
pub fn nothing_has_to_come_to_the_root()
    ensures root { need_of (has_bit 1) (at_root 2 4) (everywhere 2 4) ≡ 0 }
    ensures another { need_of (has_bit 2) (at_root 2 4) (everywhere 2 4) ≡ 2 }
    ensures with_root { need_of (has_bit 3) (at_root 2 4) (everywhere 2 4) ≡ 0 }
    ensures floor { floor_at Sets.Listed one_node Kind.Broadcast ≡ record { above = 0; below = 1; nodes = 0 } }
{}

/// Each set of nodes but the empty one, by its bits.
pub fn every_set_of_two_nodes()
    ensures { map (mask_of 2) (node_sets Sets.All 2) ≡ 1 ∷ 2 ∷ 3 ∷ [] }
{}

/// At a switch two chunks a round come to a node, whichever groups stand first. The cover in the
/// topology's order says so only where the groups of what comes to a node do.
pub fn a_switch_has_one_width()
    ensures out_first { width_by Sets.All (has_bit 1) switch_out_first ≡ 2 }
    ensures in_first { width_by Sets.All (has_bit 1) switch_in_first ≡ 2 }
    ensures listed_out_first { width_by Sets.Listed (has_bit 1) switch_out_first ≡ 4 }
    ensures listed_in_first { width_by Sets.Listed (has_bit 1) switch_in_first ≡ 2 }
    ensures in_order { cover_by Sets.Listed (has_bit 1) switch_out_first ≡ 1 ∷ 2 ∷ [] }
    ensures narrowest { cover_by Sets.All (has_bit 1) switch_out_first ≡ 3 ∷ [] }
{}

/// A group that has all links is taken alone where each cover by an order takes one before it.
pub fn the_greedy_cover_takes_one_for_all()
    ensures in_order { cover (has_bit 1) one_for_all ≡ 0 ∷ 1 ∷ [] }
    ensures in_reverse { cover_back (has_bit 1) one_for_all ≡ 1 ∷ 2 ∷ [] }
    ensures greedily { cover_greedily (has_bit 1) one_for_all ≡ 1 ∷ [] }
    ensures width { width_by Sets.All (has_bit 1) one_for_all ≡ 1 }
{}

/// A cable carries what has to come from one pair of nodes to the other.
pub fn a_cable_between_two_pairs()
    ensures cover { cover_by Sets.All (has_bit 12) two_pairs ≡ 4 ∷ [] }
    ensures too_many { cut_at Sets.All two_pairs Kind.Allgather 1 1 ≡ Some (cut 3 (5 ∷ []) 2 1) }
    ensures floor { floor_at Sets.All two_pairs Kind.Allgather ≡ record { above = 2; below = 1; nodes = 3 } }
{}

/// A chunk that no node has cannot come from outside all nodes: the set of all refutes whatever
/// the rounds. It is none of the listed sets of three nodes.
pub fn nobody_has_the_chunk()
    ensures all { first_cut_of Sets.All line_of_3 (nowhere 1 3) (at_root 1 3) 8 ≡ Some (cut 7 [] 1 0) }
    ensures listed { first_cut_of Sets.Listed line_of_3 (nowhere 1 3) (at_root 1 3) 8 ≡ None }
    ensures nothing { first_cut_of Sets.Nothing line_of_3 (nowhere 1 3) (at_root 1 3) 8 ≡ None }
{}
