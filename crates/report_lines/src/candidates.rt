//! Candidates: their numbers on a line, whether they are within the limits, and their order.

ghost use Rattle.std.specs.Prelude.{◌≡◌, ◌≤◌, ◌<◌, ◌*◌, ◌&&◌, Some, None, if◌then◌else◌, IfSome};
ghost use Rattle.report_form.specs.{Points.{candidate_from, may_join}, Tests.{comes_next, is_within}};
ghost use Rattle.report_lines.specs.{Asking.asks, Wide.candidate_of};
ghost use Rattle.text_lines.specs.Check.{Tells};

use crate::fields::next_number;
use crate::question::Question;
use candidate_order::{Candidate, comes_before};
use collective_spec::allows;
use report_form::ReportCode;
use text_lines::Tokens;

/// Steps, rounds and chunk count, as a line spells them: each is at most 65,535, and no rule was
/// tested yet.
#[derive(Clone, Copy, Debug)]
pub struct WideCandidate {
    pub s: u16,
    pub r: u16,
    pub c: u16,
}

/// Takes the steps, the rounds and the chunk count.
pub fn candidate_of(tokens: &mut Tokens<'_>) -> Result<WideCandidate, ReportCode>
    ensures { Tells (λ x. (candidate_of x, tokens.new.words)) result (candidate_from tokens.old.words) }
{
    let s = next_number(tokens)?;
    let r = next_number(tokens)?;
    let c = next_number(tokens)?;
    Ok(WideCandidate { s, r, c })
}

/// The candidate, where it is within the limits.
fn within(question: &Question<'_>, x: WideCandidate) -> Option<Candidate>
    ensures tested { result ≡ (if is_within (asks question.now) (candidate_of x) then Some (candidate_of x) else None) }
    ensures some { IfSome result (λ y. 1 ≤ y.s) }
    ensures few { IfSome result (λ y. y.s ≤ 16) }
{
    let limits = question.limits();
    let (k, steps, chunks) = (
        u16::from(limits.k()),
        u16::from(limits.max_s()),
        u16::from(limits.max_c()),
    );
    if x.s < 1 || x.s > steps || x.r < x.s || x.r > x.s + k || x.c > chunks {
        return None;
    }
    if !allows(question.kind(), question.nodes(), x.c as u8) {
        return None;
    }
    Some(Candidate {
        s: x.s as u8,
        r: x.r as u8,
        c: x.c as u8,
    })
}

/// Whether a candidate stands behind the one before it, if there is one.
fn comes_next(last: Option<Candidate>, x: Candidate) -> bool
    ensures { result ≡ comes_next last x }
{
    match last {
        None => true,
        Some(last) => comes_before(last, x),
    }
}

/// The candidate, where it is within the limits and stands behind the one before it, if there is
/// one.
pub fn candidate_behind(
    question: &Question<'_>,
    last: Option<Candidate>,
    x: WideCandidate,
) -> Option<Candidate>
    ensures tested { result ≡ (if is_within (asks question.now) (candidate_of x) && comes_next last (candidate_of x) then Some (candidate_of x) else None) }
    ensures some { IfSome result (λ y. 1 ≤ y.s) }
    ensures few { IfSome result (λ y. y.s ≤ 16) }
{
    let candidate = within(question, x)?;
    if !comes_next(last, candidate) {
        return None;
    }
    Some(candidate)
}

/// The candidate, where it may be that of two points within the limits, and of its steps so many
/// add and some copy.
pub fn joins(question: &Question<'_>, x: WideCandidate, adding: u16) -> Option<Candidate>
    ensures tested { result ≡ (if may_join (asks question.now) (candidate_of x) adding then Some (candidate_of x) else None) }
    ensures some { IfSome result (λ y. 1 ≤ y.s) }
    ensures few { IfSome result (λ y. y.s ≤ 16) }
    ensures adding { IfSome result (λ y. adding < y.s) }
{
    let limits = question.limits();
    let (k, steps, chunks) = (
        2 * u16::from(limits.k()),
        2 * u16::from(limits.max_s()),
        u16::from(limits.max_c()),
    );
    if x.s < 2 || x.s > steps || x.r < x.s || x.r > x.s + k {
        return None;
    }
    if x.c < 1 || x.c > chunks || adding < 1 || adding >= x.s {
        return None;
    }
    Some(Candidate {
        s: x.s as u8,
        r: x.r as u8,
        c: x.c as u8,
    })
}
