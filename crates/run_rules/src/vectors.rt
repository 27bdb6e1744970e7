//! What the definitions give on small and known words, texts and searches.

ghost use Rattle.std.specs.Prelude.{◌≡◌, [], ◌∷◌, true, false, Ok, Err, codes};
ghost use Rattle.candidate_order.specs.Ranges.{unpruned};
ghost use Rattle.topology_families.specs.Family.{family_of};
ghost use Rattle.report_form.specs.{Spelling.report_text, Rows.{broadcast_report, relay_report}};
ghost use Rattle.frontier_audit.specs.Rows.{beside_one_step, cnf_of_one_step};
ghost use Rattle.candidate_formula.specs.Sizes.{size_of};
ghost use Rattle.run_rules.specs.{Audits.audited, Refusals.{refusal_line, refused_at, refused_word}, Tasks.{Bound, Synthesise, Try, Write, due, searchable}, Rows.{bounds, broadcast_words, moved_text, search, two_nodes_text}};

use crate::status::Status;
use collective_spec::{Kind, Spec};
use command_words::WordCode;
use node_cuts::Sets;
use topology_families::FamilyKind;

/// The size of an all-to-all on sixteen nodes, each joined to each, which is too large; and of an
/// allgather on the cube of eight.
pub fn sizes()
    ensures too_large { searchable (record { topology = (family_of FamilyKind.Complete 16).topology; spec = Spec.Standard (record { kind = Kind.Alltoall; root = 0 }); limits = record { k = 8; max_s = 8; max_c = 16; conflicts = 1000; pruning = unpruned } }) ≡ Err (refused_at Status.TooLarge 0 5406720) }
    ensures cube { size_of (record { topology = (family_of FamilyKind.Cube 8).topology; spec = Spec.Standard (record { kind = Kind.Allgather; root = 0 }); limits = record { k = 0; max_s = 3; max_c = 1; conflicts = 1000; pruning = unpruned } }) ≡ 1728 }
{}

/// Words that are refused before anything is read, and words that need no text.
pub fn words_due()
    ensures none { due [] [] ≡ Err (refused_at Status.BadWords 1 0) }
    ensures unknown { due (codes "sing" ∷ []) [] ≡ Err (refused_at Status.BadWords 2 0) }
    ensures missing { due (codes "synth" ∷ codes "k=0" ∷ []) [] ≡ Err (refused_at Status.BadWords 5 2) }
    ensures family { due (codes "family" ∷ codes "kind=line" ∷ codes "size=2" ∷ []) (codes "left") ≡ Ok (Write two_nodes_text) }
    ensures trial { due (codes "trial" ∷ codes "n=3333" ∷ []) [] ≡ Ok (Try 3333) }
{}

/// Searches that are refused for the text, the root, the collective, and the chunk counts.
pub fn searches_due()
    ensures text { due (search (codes "collective=broadcast") []) (codes "topology 3\n") ≡ Err (refused_at Status.BadTopology 1 1) }
    ensures root { due (search (codes "collective=broadcast") (codes "root=n9" ∷ [])) two_nodes_text ≡ Err (refused_word WordCode.UnknownRoot 6) }
    ensures no_pattern { due (search (codes "collective=custom") []) two_nodes_text ≡ Err (refused_word WordCode.CustomMismatch 1) }
    ensures pattern { due (search (codes "collective=broadcast") (codes "root=n9" ∷ [])) moved_text ≡ Err (refused_word WordCode.CustomMismatch 1) }
    ensures candidates { due (search (codes "collective=alltoall") []) two_nodes_text ≡ Err (refused_at Status.NoCandidate 0 0) }
{}

/// Searches that are to be done: what is left out, whether proofs are kept, and which sets of nodes
/// are looked at, as the words say.
pub fn tasks_due()
    ensures plain { due (search (codes "collective=broadcast") []) two_nodes_text ≡ Ok (Synthesise (broadcast_words unpruned) (family_of FamilyKind.Line 2) false) }
    ensures kept { due (search (codes "collective=broadcast") (codes "kept=yes" ∷ [])) two_nodes_text ≡ Ok (Synthesise (broadcast_words unpruned) (family_of FamilyKind.Line 2) true) }
    ensures pruned { due (search (codes "collective=broadcast") (codes "cuts=yes" ∷ codes "ordered=yes" ∷ [])) two_nodes_text ≡ Ok (Synthesise (broadcast_words (record { cuts = true; ordered = true })) (family_of FamilyKind.Line 2) false) }
    ensures listed { due (bounds (codes "collective=broadcast") []) two_nodes_text ≡ Ok (Bound (broadcast_words unpruned) (family_of FamilyKind.Line 2) Sets.Listed) }
    ensures all { due (bounds (codes "collective=broadcast") (codes "sets=all" ∷ [])) two_nodes_text ≡ Ok (Bound (broadcast_words unpruned) (family_of FamilyKind.Line 2) Sets.All) }
{}

/// Reports that are refused for their text, for the point that is asked for, and by the audit.
pub fn reports_due()
    ensures text { due (codes "replay" ∷ codes "point=1" ∷ []) (codes "sccl 1\n") ≡ Err (refused_at Status.BadReport 2 2) }
    ensures point { due (codes "replay" ∷ codes "point=2" ∷ []) (report_text broadcast_report) ≡ Err (refused_word WordCode.UnknownPoint 1) }
    ensures denied { audited relay_report (beside_one_step cnf_of_one_step []) ≡ Err (record { status = Status.Denied; code = 5; place = codes "1-1-1" }) }
    ensures line { refusal_line (record { status = Status.Denied; code = 5; place = codes "1-1-1" }) ≡ codes "refused 8 5 1-1-1\n" }
{}
