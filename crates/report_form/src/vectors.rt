//! What the definitions give on small reports.
#![tactic(auto, unfolding(crate::specs::Rows::digits, crate::specs::Reading::report_of, topology_text::specs::Reading::pattern_at, crate::specs::Reading::body_of, crate::specs::Reading::frontier_at, crate::specs::Points::frontier_point_at, crate::specs::Points::joined_point_at, crate::specs::Points::schedule_at, crate::specs::Spelling::report_text))]

ghost use Rattle.std.specs.Prelude.{◌≡◌, ◌++◌, [], Ok, Err, codes};
ghost use Rattle.report_form.specs.{Spelling.report_text, Reading.report_of, Rows.{broadcast_report, allreduce_report, relay_report, pruned_report, moved_report, broadcast_head, relay_text, moved_head, moved_body}};

use crate::fault::ReportCode;

/// The texts of a broadcast and of an allreduce on two nodes, of a broadcast on three, of one that
/// leaves out what it may, and of a chunk that is to go from one node to another.
pub fn texts()
    ensures broadcast { report_text broadcast_report ≡ codes "sccl 1\nsynth collective=broadcast k=0 steps=1 chunks=1 conflicts=1000 root=n0\ntopology 1\nnodes n0 n1\ngroup 1 n0>n1\ngroup 1 n1>n0\nfrontier whole\npoint 1 1 1 optimal\nrounds 1\nsend 0 n0 n1 1\nend\n" }
    ensures allreduce { report_text allreduce_report ≡ codes "sccl 1\nsynth collective=allreduce k=0 steps=1 chunks=1 conflicts=1000\ntopology 1\nnodes n0 n1\ngroup 1 n0>n1\ngroup 1 n1>n0\nfrontier reduce\npoint 1 1 1 optimal\nrounds 1\nsend 0 n1 n0 1\nsend 1 n0 n1 1\nfrontier gather\npoint 1 1 1 optimal\nrounds 1\nsend 0 n0 n1 1\nsend 1 n1 n0 1\njoined\npoint 2 2 1 joined 1\nrounds 1 1\nsend 0 n1 n0 1\nsend 1 n0 n1 1\nsend 0 n0 n1 2\nsend 1 n1 n0 2\nend\n" }
    ensures moved { report_text moved_report ≡ moved_head ++ (codes "custom 1\nbefore 0 a\nafter 0 c\n" ++ moved_body) }
    ensures pruned { report_text pruned_report ≡ codes "sccl 1\nsynth collective=broadcast k=0 steps=1 chunks=2 conflicts=1000 root=n0 cuts=yes ordered=yes\ntopology 1\nnodes n0 n1\ngroup 1 n0>n1\ngroup 1 n1>n0\nfrontier whole\npoint 1 1 1 optimal\nrounds 1\nsend 0 n0 n1 1\nrefuted 1 1 2\nend\n" }
    ensures relay { report_text relay_report ≡ relay_text (codes "1000") (codes "n0") (codes "point 2 2 1 optimal\nrounds 1 1\nsend 0 n0 n1 1\nsend 0 n1 n2 2\nrefuted 1 1 1\nend\n") }
{}

/// The texts of these reports are read as these reports.
pub fn texts_read()
    ensures broadcast { report_of (report_text broadcast_report) ≡ Ok broadcast_report }
    ensures allreduce { report_of (report_text allreduce_report) ≡ Ok allreduce_report }
    ensures moved { report_of (report_text moved_report) ≡ Ok moved_report }
    ensures relay { report_of (report_text relay_report) ≡ Ok relay_report }
    ensures pruned { report_of (report_text pruned_report) ≡ Ok pruned_report }
{}

/// Texts that are no reports: the broadcast's text cut off or changed, and the empty text.
pub fn broadcasts_refused()
    ensures cut { report_of (broadcast_head ++ codes "point 1 1 1 optimal\nrounds 1\nsend 0 n0 n1 1\n") ≡ Err (ReportCode.Truncated, 11) }
    ensures mark { report_of (broadcast_head ++ codes "point 1 1 1 best\nrounds 1\nsend 0 n0 n1 1\nend\n") ≡ Err (ReportCode.BadLine, 8) }
    ensures candidate { report_of (broadcast_head ++ codes "point 1 2 1 optimal\nrounds 1\nsend 0 n0 n1 1\nend\n") ≡ Err (ReportCode.Limits, 8) }
    ensures rounds { report_of (broadcast_head ++ codes "point 1 1 1 optimal\nrounds 2\nsend 0 n0 n1 1\nend\n") ≡ Err (ReportCode.Limits, 9) }
    ensures empty { report_of [] ≡ Err (ReportCode.Truncated, 1) }
{}

/// The relay's text, cut off or changed at one line from the tenth on, or at its second line.
pub fn relays_refused()
    ensures refuted_outside { report_of (relay_text (codes "1000") (codes "n0") (codes "point 2 2 1 optimal\nrounds 1 1\nsend 0 n0 n1 1\nsend 0 n1 n2 2\nrefuted 3 3 1\nend\n")) ≡ Err (ReportCode.Limits, 14) }
    ensures exchanged { report_of (relay_text (codes "1000") (codes "n0") (codes "point 2 2 1 optimal\nrounds 1 1\nsend 0 n1 n2 2\nsend 0 n0 n1 1\nrefuted 1 1 1\nend\n")) ≡ Err (ReportCode.Limits, 13) }
    ensures chunk { report_of (relay_text (codes "1000") (codes "n0") (codes "point 2 2 1 optimal\nrounds 1 1\nsend 1 n0 n1 1\nsend 0 n1 n2 2\nrefuted 1 1 1\nend\n")) ≡ Err (ReportCode.Limits, 12) }
    ensures node { report_of (relay_text (codes "1000") (codes "n0") (codes "point 2 2 1 optimal\nrounds 1 1\nsend 0 n0 n9 1\nsend 0 n1 n2 2\nrefuted 1 1 1\nend\n")) ≡ Err (ReportCode.BadLine, 12) }
    ensures too_large { report_of (relay_text (codes "1000") (codes "n0") (codes "point 2 2 1 optimal\nrounds 1 65536\nsend 0 n0 n1 1\nsend 0 n1 n2 2\nrefuted 1 1 1\nend\n")) ≡ Err (ReportCode.BadLine, 11) }
    ensures second_end { report_of (relay_text (codes "1000") (codes "n0") (codes "point 2 2 1 optimal\nrounds 1 1\nsend 0 n0 n1 1\nsend 0 n1 n2 2\nrefuted 1 1 1\nend\nend\n")) ≡ Err (ReportCode.BadLine, 16) }
    ensures conflicts { report_of (relay_text (codes "0") (codes "n0") (codes "point 2 2 1 optimal\nrounds 1 1\nsend 0 n0 n1 1\nsend 0 n1 n2 2\nrefuted 1 1 1\nend\n")) ≡ Err (ReportCode.Limits, 2) }
    ensures root { report_of (relay_text (codes "1000") (codes "n9") (codes "point 2 2 1 optimal\nrounds 1 1\nsend 0 n0 n1 1\nsend 0 n1 n2 2\nrefuted 1 1 1\nend\n")) ≡ Err (ReportCode.Limits, 4) }
{}

/// On one line, a lacking line feed is told before a wrong shape, and a wrong shape before a broken
/// rule.
pub fn order_of_checks()
    ensures group_cut { report_of (codes "sccl 1\nsynth collective=broadcast k=0 steps=1 chunks=1 conflicts=1000 root=n9\ntopology 1\nnodes n9 n1\ngroup 0 n0>n0") ≡ Err (ReportCode.Truncated, 5) }
    ensures after_end_cut { report_of (broadcast_head ++ codes "end\nend") ≡ Err (ReportCode.Truncated, 9) }
    ensures point_cut { report_of (broadcast_head ++ codes "point 1 2 1 best") ≡ Err (ReportCode.Truncated, 8) }
    ensures shape_and_rule { report_of (broadcast_head ++ codes "point 1 2 1 best\n") ≡ Err (ReportCode.BadLine, 8) }
    ensures send_shape_and_rule { report_of (broadcast_head ++ codes "point 1 1 1 open\nrounds 1\nsend 9 n0 n1 x\n") ≡ Err (ReportCode.BadLine, 10) }
    ensures root_after_names { report_of (codes "sccl 1\nsynth collective=broadcast k=0 steps=1 chunks=1 conflicts=1000 root=n9\ntopology 1\nnodes n0 n0\n") ≡ Err (ReportCode.BadLine, 4) }
    ensures asked_shape_and_rule { report_of (codes "sccl 1\nsynth collective=broadcast k=9 steps=1 chunks=1 conflicts=1000\n") ≡ Err (ReportCode.BadLine, 2) }
{}

/// Numbers: those of the second line and an unknown candidate's conflicts may be of any size in the
/// check of the shape.
pub fn numbers_checked()
    ensures wide_limit { report_of (codes "sccl 1\nsynth collective=allgather k=1000000000000000000000000000000000000000000000000000000000000000000000 steps=1 chunks=1 conflicts=1000\n") ≡ Err (ReportCode.Limits, 2) }
    ensures zero_before { report_of (codes "sccl 1\nsynth collective=allgather k=00 steps=1 chunks=1 conflicts=1000\n") ≡ Err (ReportCode.BadLine, 2) }
    ensures no_digit { report_of (codes "sccl 1\nsynth collective=allgather k= steps=1 chunks=1 conflicts=1000\n") ≡ Err (ReportCode.BadLine, 2) }
    ensures wide_conflicts { report_of (broadcast_head ++ codes "unknown 1 1 1 18446744073709551616\n") ≡ Err (ReportCode.Limits, 8) }
    ensures other_conflicts { report_of (broadcast_head ++ codes "unknown 1 1 1 999\n") ≡ Err (ReportCode.Limits, 8) }
    ensures wide_candidate { report_of (broadcast_head ++ codes "unknown 65536 1 1 1000\n") ≡ Err (ReportCode.BadLine, 8) }
    ensures more_rounds { report_of (broadcast_head ++ codes "point 1 1 1 open\nrounds 1 1\n") ≡ Err (ReportCode.Limits, 9) }
    ensures no_rounds { report_of (broadcast_head ++ codes "point 1 1 1 open\nrounds\n") ≡ Err (ReportCode.Limits, 9) }
    ensures empty_round { report_of (broadcast_head ++ codes "point 1 1 1 open\nrounds \n") ≡ Err (ReportCode.BadLine, 9) }
{}

/// Which line may follow which: points, then refuted candidates, then unknown ones, then the end,
/// and each list in the order of the search.
pub fn order_of_lines()
    ensures refuted_late { report_of (broadcast_head ++ codes "unknown 1 1 1 1000\nrefuted 1 1 1\nend\n") ≡ Err (ReportCode.BadLine, 9) }
    ensures point_late { report_of (broadcast_head ++ codes "refuted 1 1 1\npoint 1 1 1 open\n") ≡ Err (ReportCode.BadLine, 9) }
    ensures refuted_twice { report_of (broadcast_head ++ codes "refuted 1 1 1\nrefuted 1 1 1\nend\n") ≡ Err (ReportCode.Limits, 9) }
    ensures point_twice { report_of (broadcast_head ++ codes "point 1 1 1 open\nrounds 1\npoint 1 1 1 open\n") ≡ Err (ReportCode.Limits, 10) }
    ensures joined_of_broadcast { report_of (broadcast_head ++ codes "joined\nend\n") ≡ Err (ReportCode.BadLine, 8) }
    ensures joined_mark { report_of (broadcast_head ++ codes "point 1 1 1 joined 1\n") ≡ Err (ReportCode.BadLine, 8) }
    ensures no_end { report_of broadcast_head ≡ Err (ReportCode.Truncated, 8) }
{}

/// Of which version the first three lines are: a collective that is given has version 2, and each
/// other one version 1.
pub fn versions_refused()
    ensures given_in_first { report_of (codes "sccl 1\nsynth collective=custom k=0 steps=2 chunks=1 conflicts=1000\n") ≡ Err (ReportCode.BadLine, 2) }
    ensures pattern_in_first { report_of (codes "sccl 1\nsynth collective=broadcast k=0 steps=2 chunks=1 conflicts=1000 root=a\ntopology 2\n") ≡ Err (ReportCode.BadLine, 3) }
    ensures custom_in_first { report_of (codes "sccl 1\nsynth collective=broadcast k=0 steps=2 chunks=1 conflicts=1000 root=a\ntopology 1\nnodes a b c\ngroup 1 a>b\ngroup 1 b>c\ncustom 1\n") ≡ Err (ReportCode.BadLine, 7) }
    ensures other_in_second { report_of (codes "sccl 2\nsynth collective=broadcast k=0 steps=2 chunks=1 conflicts=1000 root=a\n") ≡ Err (ReportCode.Limits, 2) }
    ensures shape_before_kind { report_of (codes "sccl 2\nsynth collective=broadcast k=0 steps=2 chunks=1 conflicts=1000\n") ≡ Err (ReportCode.BadLine, 2) }
    ensures root_of_given { report_of (codes "sccl 2\nsynth collective=custom k=0 steps=2 chunks=1 conflicts=1000 root=a\n") ≡ Err (ReportCode.BadLine, 2) }
    ensures no_pattern_in_second { report_of (codes "sccl 2\nsynth collective=custom k=0 steps=2 chunks=1 conflicts=1000\ntopology 1\n") ≡ Err (ReportCode.BadLine, 3) }
    ensures third { report_of (codes "sccl 3\n") ≡ Err (ReportCode.BadLine, 1) }
{}

/// The lines of a pattern, cut off or changed, and lines behind them that are none of its
/// collective.
pub fn patterns_refused()
    ensures no_pattern { report_of (moved_head ++ moved_body) ≡ Err (ReportCode.BadLine, 7) }
    ensures cut { report_of (moved_head ++ codes "custom 1\nbefore 0 a\n") ≡ Err (ReportCode.Truncated, 9) }
    ensures no_line_feed { report_of (moved_head ++ codes "custom 1\nbefore 0 a\nafter 0 c") ≡ Err (ReportCode.Truncated, 9) }
    ensures base { report_of (moved_head ++ (codes "custom 17\nbefore 0 a\nafter 0 c\n" ++ moved_body)) ≡ Err (ReportCode.BadLine, 7) }
    ensures order { report_of (moved_head ++ (codes "custom 1\nbefore 0 c a\nafter 0 c\n" ++ moved_body)) ≡ Err (ReportCode.BadLine, 8) }
    ensures unknown_node { report_of (moved_head ++ (codes "custom 1\nbefore 0 a\nafter 0 d\n" ++ moved_body)) ≡ Err (ReportCode.BadLine, 9) }
    ensures one_more { report_of (moved_head ++ (codes "custom 1\nbefore 0 a\nafter 0 c\nbefore 1\n" ++ moved_body)) ≡ Err (ReportCode.BadLine, 10) }
    ensures chunk { report_of (moved_head ++ codes "custom 1\nbefore 0 a\nafter 0 c\nfrontier whole\npoint 2 2 1 open\nrounds 1 1\nsend 1 a b 1\nend\n") ≡ Err (ReportCode.Limits, 13) }
    ensures joined { report_of (moved_head ++ codes "custom 1\nbefore 0 a\nafter 0 c\nfrontier whole\njoined\nend\n") ≡ Err (ReportCode.BadLine, 11) }
{}

/// The words for what may be left out: the two in their order, each once, behind all others, and
/// with no other value; a wrong one is told before a limit that is out of range.
pub fn prunings_refused()
    ensures other_order { report_of (codes "sccl 1\nsynth collective=allgather k=0 steps=1 chunks=1 conflicts=1000 ordered=yes cuts=yes\n") ≡ Err (ReportCode.BadLine, 2) }
    ensures twice { report_of (codes "sccl 1\nsynth collective=allgather k=0 steps=1 chunks=1 conflicts=1000 cuts=yes cuts=yes\n") ≡ Err (ReportCode.BadLine, 2) }
    ensures no { report_of (codes "sccl 1\nsynth collective=allgather k=0 steps=1 chunks=1 conflicts=1000 cuts=no\n") ≡ Err (ReportCode.BadLine, 2) }
    ensures no_value { report_of (codes "sccl 1\nsynth collective=allgather k=0 steps=1 chunks=1 conflicts=1000 cuts=yes ordered=\n") ≡ Err (ReportCode.BadLine, 2) }
    ensures other_key { report_of (codes "sccl 1\nsynth collective=allgather k=0 steps=1 chunks=1 conflicts=1000 kept=yes\n") ≡ Err (ReportCode.BadLine, 2) }
    ensures before_root { report_of (codes "sccl 1\nsynth collective=broadcast k=0 steps=1 chunks=1 conflicts=1000 cuts=yes root=n0\n") ≡ Err (ReportCode.BadLine, 2) }
    ensures word_and_limit { report_of (codes "sccl 1\nsynth collective=allgather k=9 steps=1 chunks=1 conflicts=1000 ordered=no\n") ≡ Err (ReportCode.BadLine, 2) }
    ensures limit { report_of (codes "sccl 1\nsynth collective=allgather k=9 steps=1 chunks=1 conflicts=1000 ordered=yes\n") ≡ Err (ReportCode.Limits, 2) }
{}
