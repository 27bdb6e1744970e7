//! Laws of the checks of a report.

ghost use Rattle.std.specs.Prelude.{◌≡◌, ℕ, List, [], Ok, Decides};
ghost use Rattle.candidate_order.specs.{Ranges.{LimitsValue, IsLimits}, Costs.{NoWorse, Better, Before}, Frontiers.{QuestionValue, IsWithin}};
ghost use Rattle.report_form.specs.{Reports.{ReportValue, IsReport}, Spelling.report_text, Reading.report_of, First.FailsFirstAt, Tests.{are_limits, is_within, is_no_worse, is_better, is_before}};

use candidate_order::Candidate;

/// Each test of limits and of candidates is true exactly where what it tests holds.
#[tactic(auto, using(crate::proofs::Tested::decides_limits, crate::proofs::Tested::decides_within, crate::proofs::Tested::decides_no_worse, crate::proofs::Tested::decides_better, crate::proofs::Tested::decides_before))]
pub fn tests_decide()
    ensures limits { (l : LimitsValue) → Decides (are_limits l) (IsLimits l) }
    ensures within { (q : QuestionValue) (x : Candidate) → Decides (is_within q x) (IsWithin q x) }
    ensures no_worse { (a b : Candidate) → Decides (is_no_worse a b) (NoWorse a b) }
    ensures better { (a b : Candidate) → Decides (is_better a b) (Better a b) }
    ensures before { (a b : Candidate) → Decides (is_before a b) (Before a b) }
{}

/// What the checks of a text give is a valid report, and the text is its one spelling.
pub fn what_is_read_is_spelled()
    ensures valid { (text : List ℕ) (r : ReportValue) → report_of text ≡ Ok r → IsReport r }
    ensures spelled { (text : List ℕ) (r : ReportValue) → report_of text ≡ Ok r → text ≡ report_text r }
{}

/// At most one line of a text is the first at which the text can no longer be a report's; of the
/// empty text it is line 1.
pub fn one_line_fails_first()
    ensures unique { (text : List ℕ) (m n : ℕ) → FailsFirstAt text m → FailsFirstAt text n → m ≡ n }
    ensures empty { FailsFirstAt [] 1 }
{}
