//! What the definitions give on small questions.

ghost use Rattle.std.specs.Prelude.{◌≡◌, true, false, [], ◌∷◌};
ghost use Rattle.schedule.specs.Rows.{line_of_3};
ghost use Rattle.candidate_order.specs.Ranges.{unpruned};
ghost use Rattle.candidate_formula.specs.{Counts.allowed_up_to, Pruned.is_cut_away, Sizes.size_of};

use collective_spec::{Kind, Spec};

/// Sizes of searches over the four links of the line of 3: the sends, and a counter of two
/// variables for each link and chunk, step and extra round.
pub fn sizes_on_the_line_of_3()
    ensures one_chunk { size_of (record { topology = line_of_3; spec = Spec.Standard (record { kind = Kind.Broadcast; root = 0 }); limits = record { k = 0; max_s = 1; max_c = 1; conflicts = 1000; pruning = unpruned } }) ≡ 12 }
    ensures three_chunks { size_of (record { topology = line_of_3; spec = Spec.Standard (record { kind = Kind.Allgather; root = 0 }); limits = record { k = 0; max_s = 1; max_c = 1; conflicts = 1000; pruning = unpruned } }) ≡ 36 }
    ensures two_steps { size_of (record { topology = line_of_3; spec = Spec.Standard (record { kind = Kind.Reduce; root = 0 }); limits = record { k = 1; max_s = 2; max_c = 2; conflicts = 1000; pruning = unpruned } }) ≡ 64 }
{}

/// Three chunks of node 0 can't come to another node of the line of 3 in two rounds, nor their sums
/// from there. Where no cuts are made, that cuts nothing away.
pub fn three_chunks_are_cut_away_on_the_line_of_3()
    ensures cut { is_cut_away (record { topology = line_of_3; spec = Spec.Standard (record { kind = Kind.Broadcast; root = 0 }); limits = record { k = 0; max_s = 2; max_c = 3; conflicts = 1000; pruning = record { cuts = true; ordered = false } } }) (record { s = 2; r = 2; c = 3 }) ≡ true }
    ensures summed { is_cut_away (record { topology = line_of_3; spec = Spec.Standard (record { kind = Kind.Reduce; root = 0 }); limits = record { k = 0; max_s = 2; max_c = 3; conflicts = 1000; pruning = record { cuts = true; ordered = false } } }) (record { s = 2; r = 2; c = 3 }) ≡ true }
    ensures enough { is_cut_away (record { topology = line_of_3; spec = Spec.Standard (record { kind = Kind.Broadcast; root = 0 }); limits = record { k = 0; max_s = 2; max_c = 3; conflicts = 1000; pruning = record { cuts = true; ordered = false } } }) (record { s = 2; r = 3; c = 3 }) ≡ false }
    ensures unasked { is_cut_away (record { topology = line_of_3; spec = Spec.Standard (record { kind = Kind.Broadcast; root = 0 }); limits = record { k = 0; max_s = 2; max_c = 3; conflicts = 1000; pruning = record { cuts = false; ordered = true } } }) (record { s = 2; r = 2; c = 3 }) ≡ false }
{}

/// The chunk counts of an all-to-all and of a gather on four nodes.
pub fn counts_on_four_nodes()
    ensures multiples { allowed_up_to 16 Kind.Alltoall 4 ≡ 4 ∷ 8 ∷ 12 ∷ 16 ∷ [] }
    ensures too_few { allowed_up_to 3 Kind.Alltoall 4 ≡ [] }
    ensures each { allowed_up_to 3 Kind.Gather 4 ≡ 1 ∷ 2 ∷ 3 ∷ [] }
{}
