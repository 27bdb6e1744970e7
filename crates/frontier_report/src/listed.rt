//! The lines of refuted and of unknown candidates.

ghost use Rattle.std.specs.{Prelude.{◌≡◌, ◌==◌, ◌&&◌, None, Some, if◌then◌else◌, map, IsTrue}, List.last_or, Str.Parse.digits_value};
ghost use Rattle.text_lines.specs.{Line.{IsIn, row_at}, Check.{Tells, line_part}};
ghost use Rattle.report_form.specs.{Fields.is_number, Reading.{refuted_line, unknown_line}, Tests.{comes_next, is_within}};
ghost use Rattle.report_lines.specs.{Asking.asks, Wide.candidate_of};
ghost use Rattle.frontier_report.specs.inner.Wide.{unknown};

use crate::repeats::Repeats;
use crate::report_stop::ReportStop;
use candidate_order::{Candidate, Unknown};
use report_form::{ReportCode, ReportFault};
use report_lines::{
    Question, WideCandidate, candidate_behind, candidate_of, fixed_word, next_digits, next_line,
    no_more, spells, tokens_on,
};
use text_lines::{Line, Lines, Tokens};

/// What reads the refuted candidates of a part.
#[derive(Clone, Copy)]
pub struct Refuted<'a>(pub &'a Question<'a>);

/// The last candidate, if there is one.
#[tactic(auto, using(crate::proofs::Turns::last_of))]
fn last_refuted(refuted: &[Candidate]) -> Option<Candidate>
    ensures { result ≡ last_or None refuted.now }
{
    refuted.last().copied()
}

/// The candidate, where it is within the limits and stands behind those before it.
fn refuted_behind(
    question: &Question<'_>,
    before: &[Candidate],
    x: WideCandidate,
) -> Option<Candidate>
    ensures { result ≡ (if is_within (asks question.now) (candidate_of x) && comes_next (last_or None before.now) (candidate_of x) then Some (candidate_of x) else None) }
{
    candidate_behind(question, last_refuted(before), x)
}

/// A refuted candidate, behind those before it.
fn refuted_on(
    text: &[u8],
    line: Line,
    question: &Question<'_>,
    before: &[Candidate],
) -> Result<Candidate, ReportCode>
    requires { IsIn text.now line }
    ensures { Tells (λ x. x) result (refuted_line (asks question.now) before.now (Some (row_at text.now line))) }
{
    let mut tokens = tokens_on(text, line)?;
    fixed_word(&mut tokens, b"refuted")?;
    let x = candidate_of(&mut tokens)?;
    no_more(&mut tokens)?;
    refuted_behind(question, before, x).ok_or(ReportCode::Limits)
}

impl Repeats for Refuted<'_> {
    type Item = Candidate;

    ghost part_at = { λ refuted before. line_part (refuted_line (asks refuted.0.now) before) };

    fn read(&self, lines: &mut Lines<'_>, before: &[Candidate]) -> Result<Candidate, ReportStop> {
        let text = lines.text();
        let line = next_line(lines)?;
        let candidate = refuted_on(text, line, self.0, before).map_err(|code| ReportFault {
            code,
            line: line.number,
        })?;
        Ok(candidate)
    }
}

/// What reads the unknown candidates of a part.
#[derive(Clone, Copy)]
pub struct Unknowns<'a>(pub &'a Question<'a>);

/// The last candidate, if there is one.
#[tactic(auto, using(crate::proofs::Turns::last_of, crate::proofs::Turns::last_part))]
fn last_unknown(unknown: &[Unknown]) -> Option<Candidate>
    ensures { result ≡ last_or None (map (λ u. u.candidate) unknown.now) }
{
    unknown.last().map(|u| u.candidate())
}

/// The candidate, where it is within the limits and stands behind those before it, and the digits
/// spell the conflicts that were allowed.
#[tactic(auto, using(crate::proofs::Turns::not_tested))]
fn unknown_behind(
    question: &Question<'_>,
    before: &[Unknown],
    x: WideCandidate,
    digits: &[u8],
) -> Option<Unknown>
    requires { IsTrue (is_number digits.now) }
    ensures { result ≡ (if is_within (asks question.now) (candidate_of x) && comes_next (last_or None (map (λ u. u.candidate) before.now)) (candidate_of x) && digits_value 10 digits.now == (asks question.now).limits.conflicts then Some (unknown (candidate_of x) (digits_value 10 digits.now)) else None) }
{
    let conflicts = question.limits().conflicts();
    let Some(candidate) = candidate_behind(question, last_unknown(before), x) else {
        return None;
    };
    if spells(digits, conflicts) {
        Some(Unknown::new(candidate, conflicts))
    } else {
        None
    }
}

/// An unknown candidate, behind those before it.
fn unknown_on(
    text: &[u8],
    line: Line,
    question: &Question<'_>,
    before: &[Unknown],
) -> Result<Unknown, ReportCode>
    requires { IsIn text.now line }
    ensures { Tells (λ u. u) result (unknown_line (asks question.now) before.now (Some (row_at text.now line))) }
{
    let mut tokens = tokens_on(text, line)?;
    fixed_word(&mut tokens, b"unknown")?;
    let x = candidate_of(&mut tokens)?;
    let digits = next_digits(&mut tokens)?;
    no_more(&mut tokens)?;
    unknown_behind(question, before, x, digits).ok_or(ReportCode::Limits)
}

impl Repeats for Unknowns<'_> {
    type Item = Unknown;

    ghost part_at = { λ unknown before. line_part (unknown_line (asks unknown.0.now) before) };

    fn read(&self, lines: &mut Lines<'_>, before: &[Unknown]) -> Result<Unknown, ReportStop> {
        let text = lines.text();
        let line = next_line(lines)?;
        let unknown = unknown_on(text, line, self.0, before).map_err(|code| ReportFault {
            code,
            line: line.number,
        })?;
        Ok(unknown)
    }
}
