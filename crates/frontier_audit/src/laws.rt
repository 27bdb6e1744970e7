//! What a right shelf says, and what an audit does.

ghost use Rattle.std.specs.Prelude.{◌≡◌, ◌↔◌, true, false, List, None, AllPairs, Contains};
ghost use Rattle.outer_ports.specs.Files.{Files};
ghost use Rattle.cnf_formula.specs.Formulas.{Satisfiable};
ghost use Rattle.schedule.specs.Sends.{hop_before};
ghost use Rattle.candidate_order.specs.{Costs.Before, Frontiers.{QuestionValue, FrontierValue, UnknownValue, IsWithin, IsSolvable, RightFrontier}};
ghost use Rattle.allreduce_join.specs.Joins.{Joins};
ghost use Rattle.report_form.specs.Reports.{ReportValue, IsReport, question_of};
ghost use Rattle.candidate_formula.specs.{Formulas.formula_for, Files.file_of, Pruned.is_cut_away};
ghost use Rattle.frontier_audit.specs.{OwedFiles.Proves, Shelves.ShelfRight, Rights.IsRight, Candidates.candidates_within, Auditing.audit_of, Parts.{is_reduce, is_gather, points_of}};

use crate::verdict::AuditVerdict;
use candidate_order::Candidate;
use collective_spec::Kind;
use outer_ports::{FileKind, Part};
use schedule::Hop;

/// A shelf that lacks the formula or the proof of a refuted candidate that is not cut away is not
/// right.
pub fn refuted_has_files()
    ensures formula { (r : ReportValue) (files : Files) (part : Part) (f : FrontierValue) (x : Candidate) → ShelfRight r files → Contains r.frontiers (part, f) → Contains f.refuted x
        → is_cut_away (question_of r.words r.topology part) x ≡ false → files (file_of FileKind.Cnf part x) ≡ None → ⊥ }
    ensures proof { (r : ReportValue) (files : Files) (part : Part) (f : FrontierValue) (x : Candidate) → ShelfRight r files → Contains r.frontiers (part, f) → Contains f.refuted x
        → is_cut_away (question_of r.words r.topology part) x ≡ false → files (file_of FileKind.Lrat part x) ≡ None → ⊥ }
{}

/// A shelf that lacks an unknown candidate's log is not right.
pub fn unknown_has_a_log()
    ensures { (r : ReportValue) (files : Files) (part : Part) (f : FrontierValue) (u : UnknownValue) → ShelfRight r files → Contains r.frontiers (part, f) → Contains f.unknown u → files (file_of FileKind.Partial part u.candidate) ≡ None → ⊥ }
{}

/// The formula of a refuted candidate beside which its files stand has no satisfying assignment,
/// and nor has that of one that is cut away.
pub fn refuted_is_unsatisfiable()
    ensures uncut { (r : ReportValue) (files : Files) (part : Part) (f : FrontierValue) (x : Candidate) → ShelfRight r files → Contains r.frontiers (part, f) → Contains f.refuted x
        → is_cut_away (question_of r.words r.topology part) x ≡ false → Satisfiable (formula_for (question_of r.words r.topology part) x) → ⊥ }
    ensures each { (r : ReportValue) (files : Files) (part : Part) (f : FrontierValue) (x : Candidate) → IsReport r → ShelfRight r files → Contains r.frontiers (part, f) → Contains f.refuted x
        → Satisfiable (formula_for (question_of r.words r.topology part) x) → ⊥ }
{}

/// Where an audit finds nothing to deny, the shelf is right.
pub fn verified_shelf_is_right()
    ensures { (r : ReportValue) (files : Files) → IsReport r → audit_of r files ≡ AuditVerdict.Verified → ShelfRight r files }
{}

/// Where the files prove a report as a search leaves them, the shelf is right.
pub fn proving_files_are_right()
    ensures { (r : ReportValue) (before after : Files) → Proves r before after → ShelfRight r after }
{}

/// The candidates that an audit goes through are just those within the limits, in the order of the
/// search.
pub fn candidates_are_those_within()
    ensures members { (q : QuestionValue) (x : Candidate) → Contains (candidates_within q) x ↔ IsWithin q x }
    ensures order { (q : QuestionValue) → AllPairs Before (candidates_within q) }
{}

/// Two lists in the order of the search that have the same candidates are one list, and so are two
/// lists of sends in their order that have the same sends.
#[tactic(auto, using(candidate_order::proofs::Unique::one_list_of_candidates, crate::proofs::Unique::one_list_of_sends))]
pub fn ascending_lists_are_told_by_their_members()
    ensures candidates { (xs ys : List Candidate) → AllPairs Before xs → AllPairs Before ys → ((x : Candidate) → Contains xs x ↔ Contains ys x) → xs ≡ ys }
    ensures sends { (xs ys : List Hop) → AllPairs (λ a b. hop_before a b ≡ true) xs → AllPairs (λ a b. hop_before a b ≡ true) ys → ((h : Hop) → Contains xs h ↔ Contains ys h) → xs ≡ ys }
{}

/// On a right shelf no refuted candidate has a solution: no schedule solves it, or sums what a
/// reduction demands.
pub fn refuted_has_no_solution()
    ensures { (r : ReportValue) (files : Files) (part : Part) (f : FrontierValue) (x : Candidate) → IsReport r → ShelfRight r files → Contains r.frontiers (part, f) → Contains f.refuted x
        → IsSolvable (question_of r.words r.topology part) x → ⊥ }
{}

/// Where an audit finds nothing to deny, each frontier is right, and the joined points of an
/// allreduce are the joins of its parts.
pub fn verified_is_right()
    ensures frontiers { (r : ReportValue) (files : Files) → IsReport r → audit_of r files ≡ AuditVerdict.Verified → (part : Part) (f : FrontierValue) → Contains r.frontiers (part, f)
        → RightFrontier (question_of r.words r.topology part) f }
    ensures joins { (r : ReportValue) (files : Files) → IsReport r → audit_of r files ≡ AuditVerdict.Verified → r.words.collective.kind ≡ Kind.Allreduce
        → Joins r.topology.topology (points_of is_reduce r.frontiers) (points_of is_gather r.frontiers) r.joined }
    ensures report { (r : ReportValue) (files : Files) → IsReport r → audit_of r files ≡ AuditVerdict.Verified → IsRight r }
{}

/// A report with right frontiers, a right shelf and the joins of its parts is verified.
#[tactic(auto, using(crate::proofs::Right::right_verified))]
pub fn right_is_verified()
    ensures { (r : ReportValue) (files : Files) → IsReport r → ShelfRight r files
        → ((part : Part) (f : FrontierValue) → Contains r.frontiers (part, f) → RightFrontier (question_of r.words r.topology part) f)
        → (r.words.collective.kind ≡ Kind.Allreduce → Joins r.topology.topology (points_of is_reduce r.frontiers) (points_of is_gather r.frontiers) r.joined)
        → audit_of r files ≡ AuditVerdict.Verified }
{}
