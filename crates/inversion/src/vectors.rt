//! Worked sums: what the definition says of small schedules.

ghost use Rattle.std.specs.Prelude.{◌≡◌, [], ◌∷◌};
ghost use Rattle.schedule.specs.Rows.{at_root, line_of_2, back_of_2, twice_grouped, plan, ring_broadcast, ring_of_4, ring_reduce, send};
ghost use Rattle.inversion.specs.{Judging.sum_verdict_of, Reductions.tightened};

use crate::verdict::SumVerdict;

/// Two chunks are added up at node 0 of the ring of 4.
pub fn the_ring_of_4_sums()
    ensures { sum_verdict_of ring_of_4 (at_root 2 4) ring_reduce ≡ SumVerdict.Sums }
{}

/// On the line of 2 a chunk that comes twice counts twice, and one that doesn't come is missing.
pub fn the_line_of_2_counts_each_arrival()
    ensures once { sum_verdict_of line_of_2 (at_root 1 2) (plan (1 ∷ []) (send 0 1 0 1 ∷ [])) ≡ SumVerdict.Sums }
    ensures twice { sum_verdict_of line_of_2 (at_root 1 2) (plan (1 ∷ 1 ∷ []) (send 0 1 0 1 ∷ send 0 1 0 2 ∷ [])) ≡ SumVerdict.Twice 0 0 1 }
    ensures missing { sum_verdict_of line_of_2 (at_root 1 2) (plan (1 ∷ 1 ∷ []) []) ≡ SumVerdict.Missing 0 0 1 }
{}

/// Links come before bandwidth, and bandwidth before the counts.
pub fn links_and_bandwidth_come_first()
    ensures no_link { sum_verdict_of back_of_2 (at_root 1 2) (plan (1 ∷ []) (send 0 0 1 1 ∷ [])) ≡ SumVerdict.NoLink (send 0 0 1 1) }
    ensures overfull { sum_verdict_of twice_grouped (at_root 2 2) (plan (1 ∷ []) (send 0 0 1 1 ∷ send 1 0 1 1 ∷ [])) ≡ SumVerdict.Overfull 1 1 2 }
{}

/// A chunk that is there already, or that is not held, is not sent; and of two neighbours that send
/// it, the first does.
pub fn wasted_sends_are_left_out()
    ensures again { tightened (at_root 1 2) (plan (1 ∷ 1 ∷ []) (send 0 0 1 1 ∷ send 0 1 0 1 ∷ send 0 0 1 2 ∷ send 0 1 0 2 ∷ []))
        ≡ plan (1 ∷ 1 ∷ []) (send 0 0 1 1 ∷ []) }
    ensures from_both { tightened (at_root 1 4) (plan (1 ∷ 1 ∷ []) (send 0 0 1 1 ∷ send 0 0 3 1 ∷ send 0 1 2 2 ∷ send 0 3 2 2 ∷ []))
        ≡ plan (1 ∷ 1 ∷ []) (send 0 0 1 1 ∷ send 0 0 3 1 ∷ send 0 1 2 2 ∷ []) }
    ensures needed { tightened (at_root 2 4) ring_broadcast ≡ ring_broadcast }
{}
