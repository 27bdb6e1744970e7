//! What the definitions give on small reports, files and texts.
#![tactic(auto, unfolding(crate::specs::Rows::digits))]

ghost use Rattle.std.specs.Prelude.{◌≡◌, [], ◌∷◌, ◌++◌, Ok, Err, codes, pos};
ghost use Rattle.schedule.specs.Rows.{send};
ghost use Rattle.cnf_formula.specs.Literals.{yes};
ghost use Rattle.lrat_text.specs.Printing.{cnf_text};
ghost use Rattle.report_form.specs.{Reports.question_of, Rows.{point, relay_report, allreduce_report}};
ghost use Rattle.candidate_formula.specs.{Lines.lines_of_text, Formulas.{formula_for, ordered_formula_for, plain_formula_for}, Files.file_of};
ghost use Rattle.frontier_audit.specs.{Candidates.candidates_within, Auditing.audit_of};
ghost use Rattle.frontier_audit.specs.Rows.{shelf, one_step, rest_of_one_step, cnf_of_one_step, proof_of_one_step, beside_one_step, log_of_one_step, words, four_nodes, relay, joined_sends, allreduce, wide_link, two_copies, cutting, ordering, at_most_two, two_at_once, one_of_two, two_given_up, two_to_broadcast, beside_two};
ghost use Rattle.candidate_order.specs.{Ranges.unpruned, Rows.at};

use crate::verdict::{AuditVerdict, Reason};
use candidate_order::Mark;
use cnf_formula::LratLine;
use collective_spec::Kind;
use lrat_text::LratTextFault;
use outer_ports::{FileKind, Part};

/// Proof lines of whole texts: a comment and an empty line are passed over, the last line may lack
/// its line feed, and the first fault is told.
pub fn lines()
    ensures nothing { lines_of_text [] ≡ Ok [] }
    ensures two { lines_of_text (codes "c 1\n5 1 0 2 0\n\n5 d 1 0") ≡ Ok (LratLine.Addition (record { id = 5; lits = yes 1 ∷ []; hints = pos 2 ∷ [] }) ∷ LratLine.Deletion (record { id = 5; ids = 1 ∷ [] }) ∷ []) }
    ensures fault { lines_of_text (codes "5 1 0 2 0\n6 0 3") ≡ Err LratTextFault.Truncated }
{}

/// The text of the formula of one step, from the question of the relay's report.
pub fn formula_of_one_step()
    ensures { cnf_text (formula_for (question_of relay_report.words relay_report.topology Part.Whole) one_step) ≡ cnf_of_one_step }
{}

/// The audit of the relay's report, with its files and with one thing changed.
pub fn relay_audited()
    ensures verified { audit_of relay_report (beside_one_step cnf_of_one_step proof_of_one_step) ≡ AuditVerdict.Verified }
    ensures hint_lacks { audit_of relay_report (beside_one_step cnf_of_one_step (codes "34 0 2 3 16 24 0\n")) ≡ AuditVerdict.Denied Reason.ProofRefused Part.Whole one_step }
    ensures proof_empty { audit_of relay_report (beside_one_step cnf_of_one_step []) ≡ AuditVerdict.Denied Reason.ProofRefused Part.Whole one_step }
    ensures proof_lacks { audit_of relay_report (shelf ((file_of FileKind.Cnf Part.Whole one_step, cnf_of_one_step) ∷ [])) ≡ AuditVerdict.Denied Reason.ProofMissing Part.Whole one_step }
    ensures formula_differs { audit_of relay_report (beside_one_step (codes "p cnf 18 33\n-1 0\n" ++ rest_of_one_step) proof_of_one_step) ≡ AuditVerdict.Denied Reason.CnfDiffers Part.Whole one_step }
    ensures mark { audit_of (relay Mark.Open (send 0 1 2 2) (one_step ∷ []) []) (beside_one_step cnf_of_one_step proof_of_one_step) ≡ AuditVerdict.Denied Reason.MarkWrong Part.Whole (record { s = 2; r = 2; c = 1 }) }
    ensures candidate_lacks { audit_of (relay Mark.Optimal (send 0 1 2 2) [] []) (beside_one_step cnf_of_one_step proof_of_one_step) ≡ AuditVerdict.Denied Reason.CandidateMissing Part.Whole one_step }
    ensures schedule_wrong { audit_of (relay Mark.Optimal (send 0 0 2 2) (one_step ∷ []) []) (beside_one_step cnf_of_one_step proof_of_one_step) ≡ AuditVerdict.Denied Reason.ScheduleWrong Part.Whole (record { s = 2; r = 2; c = 1 }) }
{}

/// The candidates within small limits, in the order of the search; an all-to-all takes only
/// multiples of the nodes.
pub fn candidates()
    ensures ring { candidates_within (question_of (words Kind.Allgather 1 3 2) four_nodes Part.Whole)
        ≡ at 1 1 2 ∷ at 1 1 1 ∷ at 1 2 2 ∷ at 1 2 1
        ∷ at 2 2 2 ∷ at 2 3 2 ∷ at 2 2 1 ∷ at 2 3 1
        ∷ at 3 3 2 ∷ at 3 4 2 ∷ at 3 3 1 ∷ at 3 4 1 ∷ [] }
    ensures alltoall { candidates_within (question_of (words Kind.Alltoall 0 1 9) four_nodes Part.Whole) ≡ at 1 1 8 ∷ at 1 1 4 ∷ [] }
    ensures nothing { candidates_within (question_of (words Kind.Alltoall 1 2 3) four_nodes Part.Whole) ≡ [] }
{}

/// The candidate of one step left unknown: its log has to stand there, and has to have as many
/// lines as it was given conflicts, each implied by what is held, with a literal, and none that
/// says no more than a held clause. One line is the log of one conflict.
pub fn unknown_audited()
    ensures log_lacks { audit_of (relay Mark.Open (send 0 1 2 2) [] (record { candidate = one_step; conflicts = 1000 } ∷ [])) (beside_one_step cnf_of_one_step proof_of_one_step) ≡ AuditVerdict.Denied Reason.ProofMissing Part.Whole one_step }
    ensures log_refutes { audit_of (relay Mark.Open (send 0 1 2 2) [] (record { candidate = one_step; conflicts = 1000 } ∷ [])) (log_of_one_step proof_of_one_step) ≡ AuditVerdict.Denied Reason.PartialRefused Part.Whole one_step }
    ensures log_short { audit_of (relay Mark.Open (send 0 1 2 2) [] (record { candidate = one_step; conflicts = 1000 } ∷ [])) (log_of_one_step (codes "34 -1 0 2 3 9 16 24 0\n")) ≡ AuditVerdict.Denied Reason.PartialRefused Part.Whole one_step }
    ensures log_stale { audit_of (relay Mark.Open (send 0 1 2 2) [] (record { candidate = one_step; conflicts = 1 } ∷ [])) (log_of_one_step (codes "34 1 0 2 3 9 16 24 0\n")) ≡ AuditVerdict.Denied Reason.PartialRefused Part.Whole one_step }
    ensures log_redundant { audit_of (relay Mark.Open (send 0 1 2 2) [] (record { candidate = one_step; conflicts = 1 } ∷ [])) (log_of_one_step (codes "34 17 0 0\n")) ≡ AuditVerdict.Denied Reason.PartialRefused Part.Whole one_step }
    ensures verified { audit_of (relay Mark.Open (send 0 1 2 2) [] (record { candidate = one_step; conflicts = 1 } ∷ [])) (log_of_one_step (codes "34 -1 0 2 3 9 16 24 0\n")) ≡ AuditVerdict.Verified }
{}

/// Proofs by hand, cut off or altered, one with a line that is not implied but redundant, and a
/// formula with one byte too many.
pub fn altered_files_audited()
    ensures by_hand { audit_of relay_report (beside_one_step cnf_of_one_step (codes "c by hand\n34  0 2 3 9 16 24 0\r\n")) ≡ AuditVerdict.Verified }
    ensures deleted_after { audit_of relay_report (beside_one_step cnf_of_one_step (codes "34 0 2 3 9 16 24 0\n35 d 1 0\n")) ≡ AuditVerdict.Verified }
    ensures deleted_before { audit_of relay_report (beside_one_step cnf_of_one_step (codes "34 d 24 0\n35 0 2 3 9 16 24 0\n")) ≡ AuditVerdict.Denied Reason.ProofRefused Part.Whole one_step }
    ensures old_number { audit_of relay_report (beside_one_step cnf_of_one_step (codes "33 0 2 3 9 16 24 0\n")) ≡ AuditVerdict.Denied Reason.ProofRefused Part.Whole one_step }
    ensures no_line_feed { audit_of relay_report (beside_one_step cnf_of_one_step (codes "34 0 2 3 9 16 24 0")) ≡ AuditVerdict.Verified }
    ensures cut { audit_of relay_report (beside_one_step cnf_of_one_step (codes "34 0 2 3 9 16 24")) ≡ AuditVerdict.Denied Reason.ProofRefused Part.Whole one_step }
    ensures zero_twice { audit_of relay_report (beside_one_step cnf_of_one_step (codes "34 0 2 3 9 16 24 0 0\n")) ≡ AuditVerdict.Denied Reason.ProofRefused Part.Whole one_step }
    ensures negative { audit_of relay_report (beside_one_step cnf_of_one_step (codes "34 0 2 3 9 16 -24 0\n")) ≡ AuditVerdict.Denied Reason.ProofRefused Part.Whole one_step }
    ensures bad_line_later { audit_of relay_report (beside_one_step cnf_of_one_step (codes "34 0 2 3 9 16 24 0\nx\n")) ≡ AuditVerdict.Denied Reason.ProofRefused Part.Whole one_step }
    ensures redundant_line { audit_of relay_report (beside_one_step cnf_of_one_step (codes "34 17 0 0\n35 0 2 3 9 16 24 0\n")) ≡ AuditVerdict.Verified }
    ensures formula_longer { audit_of relay_report (beside_one_step (cnf_of_one_step ++ codes "\n") proof_of_one_step) ≡ AuditVerdict.Denied Reason.CnfDiffers Part.Whole one_step }
{}

/// An allreduce needs no file where nothing is refuted, and its joined points are the joins of its
/// parts' points.
pub fn allreduce_audited()
    ensures verified { audit_of allreduce_report (shelf []) ≡ AuditVerdict.Verified }
    ensures join_lacks { audit_of (allreduce []) (shelf []) ≡ AuditVerdict.Denied Reason.JoinWrong Part.Joined (at 2 2 1) }
    ensures join_differs { audit_of (allreduce (point 2 3 (Mark.Joined 1) (2 ∷ 1 ∷ []) joined_sends ∷ [])) (shelf []) ≡ AuditVerdict.Denied Reason.JoinWrong Part.Joined (at 2 2 1) }
    ensures surplus { audit_of (allreduce (point 2 2 (Mark.Joined 1) (1 ∷ 1 ∷ []) joined_sends ∷ point 3 3 (Mark.Joined 1) (1 ∷ 1 ∷ 1 ∷ []) joined_sends ∷ [])) (shelf []) ≡ AuditVerdict.Denied Reason.JoinWrong Part.Joined (at 3 3 1) }
{}

/// A pattern of one chunk: at the chunk count 2 both copies have to arrive, and the candidate of
/// one copy costs no less.
pub fn copies_audited()
    ensures verified { audit_of (two_copies (send 0 0 1 1 ∷ send 1 0 1 1 ∷ [])) (shelf []) ≡ AuditVerdict.Verified }
    ensures one_lacks { audit_of (two_copies (send 0 0 1 1 ∷ [])) (shelf []) ≡ AuditVerdict.Denied Reason.ScheduleWrong Part.Whole (at 1 1 2) }
    ensures candidates { candidates_within (question_of (words Kind.Custom 0 1 2) wide_link Part.Whole) ≡ at 1 1 2 ∷ at 1 1 1 ∷ [] }
{}

/// Where several checks fail, the first counts: schedules come before files, files before
/// candidates and marks, and a formula before its proof.
pub fn order_of_audit()
    ensures schedule_before_files { audit_of (relay Mark.Open (send 0 0 2 2) (one_step ∷ []) []) (shelf []) ≡ AuditVerdict.Denied Reason.ScheduleWrong Part.Whole (at 2 2 1) }
    ensures files_before_mark { audit_of (relay Mark.Open (send 0 1 2 2) (one_step ∷ []) []) (shelf []) ≡ AuditVerdict.Denied Reason.ProofMissing Part.Whole one_step }
    ensures formula_before_proof { audit_of relay_report (shelf ((file_of FileKind.Cnf Part.Whole one_step, []) ∷ [])) ≡ AuditVerdict.Denied Reason.CnfDiffers Part.Whole one_step }
    ensures refuted_before_unknown { audit_of (relay Mark.Open (send 0 1 2 2) (one_step ∷ []) (record { candidate = at 2 2 1; conflicts = 1000 } ∷ [])) (beside_one_step cnf_of_one_step []) ≡ AuditVerdict.Denied Reason.ProofRefused Part.Whole one_step }
    ensures candidates_before_marks { audit_of (relay Mark.Optimal (send 0 1 2 2) [] []) (shelf []) ≡ AuditVerdict.Denied Reason.CandidateMissing Part.Whole one_step }
{}

/// Two chunks don't come over one link in one round, nor do their sums. Where the words have cuts
/// made, that needs no file; without that word it does, and so does a candidate that is unknown.
pub fn cuts_audited()
    ensures verified { audit_of (at_most_two Kind.Broadcast cutting (one_of_two (send 0 0 1 1))) (shelf []) ≡ AuditVerdict.Verified }
    ensures summed { audit_of (at_most_two Kind.Reduce cutting (one_of_two (send 0 1 0 1))) (shelf []) ≡ AuditVerdict.Verified }
    ensures without_the_word { audit_of (at_most_two Kind.Broadcast unpruned (one_of_two (send 0 0 1 1))) (shelf []) ≡ AuditVerdict.Denied Reason.ProofMissing Part.Whole two_at_once }
    ensures another_word { audit_of (at_most_two Kind.Broadcast ordering (one_of_two (send 0 0 1 1))) (shelf []) ≡ AuditVerdict.Denied Reason.ProofMissing Part.Whole two_at_once }
    ensures unknown { audit_of (at_most_two Kind.Broadcast cutting two_given_up) (shelf []) ≡ AuditVerdict.Denied Reason.ProofMissing Part.Whole two_at_once }
{}

/// The two chunks of a broadcast are alike. Where the words have only ordered schedules sought, the
/// formula with the clauses of the order has to stand there, and else the one without them; a proof
/// is looked for behind it.
pub fn orders_audited()
    ensures plain_where_ordered { audit_of (at_most_two Kind.Broadcast ordering (one_of_two (send 0 0 1 1))) (beside_two (plain_formula_for two_to_broadcast two_at_once)) ≡ AuditVerdict.Denied Reason.CnfDiffers Part.Whole two_at_once }
    ensures ordered_where_ordered { audit_of (at_most_two Kind.Broadcast ordering (one_of_two (send 0 0 1 1))) (beside_two (ordered_formula_for two_to_broadcast two_at_once)) ≡ AuditVerdict.Denied Reason.ProofMissing Part.Whole two_at_once }
    ensures plain_where_plain { audit_of (at_most_two Kind.Broadcast unpruned (one_of_two (send 0 0 1 1))) (beside_two (plain_formula_for two_to_broadcast two_at_once)) ≡ AuditVerdict.Denied Reason.ProofMissing Part.Whole two_at_once }
    ensures ordered_where_plain { audit_of (at_most_two Kind.Broadcast unpruned (one_of_two (send 0 0 1 1))) (beside_two (ordered_formula_for two_to_broadcast two_at_once)) ≡ AuditVerdict.Denied Reason.CnfDiffers Part.Whole two_at_once }
{}
