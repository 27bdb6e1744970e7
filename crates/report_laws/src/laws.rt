//! Laws of the text of a report.

ghost use Rattle.std.specs.Prelude.{◌≡◌, ℕ, List, Result, Ok, Err};
ghost use Rattle.report_form.specs.{Reports.{ReportValue, IsReport}, Spelling.report_text, Reading.report_of, First.FailsFirstAt};
ghost use Rattle.report_laws.specs.Shapes.{ReadsAs};

use report_form::ReportCode;

/// The text of a valid report is read as that report, so that no two valid reports share a text.
#[tactic(auto, using(crate::proofs::ReportAgain::report_again, crate::proofs::ReportAgain::one_report))]
pub fn what_is_spelled_is_read()
    ensures read_back { (r : ReportValue) → IsReport r → report_of (report_text r) ≡ Ok r }
    ensures apart { (r s : ReportValue) → IsReport r → IsReport s → report_text r ≡ report_text s → r ≡ s }
{}

/// The line that the checks blame is the first at which the text can no longer be a report's.
#[tactic(auto, using(crate::proofs::FirstBlamed::first_is_blamed))]
pub fn the_blamed_line_fails_first()
    ensures { (text : List ℕ) (why : ReportCode) (n : ℕ) → report_of text ≡ Err (why, n) → FailsFirstAt text n }
{}

/// What a text is read as, by the checks, is what its spelling says: the report that it spells, or
/// the first line at which it can no longer be a report's, with a code by the shape of that line.
#[tactic(auto, using(crate::proofs::Readings::read_as, crate::proofs::Readings::only_read_as))]
pub fn texts_are_read_by_their_spelling()
    ensures reads { (text : List ℕ) (result : Result ReportValue (ReportCode × ℕ)) → report_of text ≡ result → ReadsAs text result }
    ensures only { (text : List ℕ) (result : Result ReportValue (ReportCode × ℕ)) → ReadsAs text result → report_of text ≡ result }
{}
