//! The candidates within the limits: whether each is answered, and whether the marks of the points
//! are right.

ghost use Rattle.std.specs.{Prelude.{◌≡◌, ◌++◌, not, IfOk, OnOk}, List.find, Option.option_map};
ghost use Rattle.frontier_audit.specs.{Candidates.candidates_within, inner.Steps.{has_mark_among, is_bettered, is_given_up, is_left_answered, is_settled, unrefuted_among, is_mark}};

use crate::part_question::PartQuestion;
use crate::verdict::Reason;
use candidate_formula::allowed_counts;
use candidate_order::{
    Candidate, Frontier, Mark, OutOfMemory, Point, Unknown, better, list, no_worse,
};
use std::alloc::Global;

/// The candidates within the limits that are not refuted, in the order of the search. The only
/// error is `OutOfMemory`.
pub(crate) fn unrefuted(
    alloc: Global,
    asked: &PartQuestion<'_>,
    refuted: &[Candidate],
) -> Result<Vec<Candidate>, OutOfMemory>
    ensures { IfOk result (λ left. left.items ≡ unrefuted_among refuted.now (candidates_within asked.now)) }
{
    let limits = asked.limits();
    let nodes = asked.topology().nodes();
    let counts = allowed_counts(alloc, nodes, asked.spec().kind(), limits)?;
    let mut left = Vec::new(alloc);
    for step in 1..limits.max_s() + 1 {
        let candidates = list(alloc, limits, step, &counts)?;
        push_unrefuted(&mut left, &candidates, refuted)?;
    }
    Ok(left)
}

/// Adds those of the candidates that are not refuted. The only error is `OutOfMemory`.
fn push_unrefuted(
    left: &mut Vec<Candidate>,
    candidates: &[Candidate],
    refuted: &[Candidate],
) -> Result<(), OutOfMemory>
    ensures { OnOk result (left.new.items ≡ left.old.items ++ unrefuted_among refuted.now candidates.now) }
{
    for candidate in candidates {
        if !refuted.contains(candidate) {
            left.push(*candidate)?;
        }
    }
    Ok(())
}

/// The first candidate within the limits that is not answered, of those that are not refuted.
pub(crate) fn passed_over(
    frontier: &Frontier,
    unrefuted: &[Candidate],
) -> Option<(Reason, Candidate)>
    ensures { result ≡ option_map (λ x. (Reason.CandidateMissing, x)) (find (λ x. not (is_left_answered frontier.now x)) unrefuted.now) }
{
    unrefuted
        .iter()
        .find(|candidate| !is_answered(frontier, **candidate))
        .map(|candidate| (Reason::CandidateMissing, *candidate))
}

/// Whether a candidate that is not refuted is settled by a point, or was given up.
fn is_answered(frontier: &Frontier, candidate: Candidate) -> bool
    ensures { result ≡ is_left_answered frontier.now candidate }
{
    is_settled(frontier.points(), candidate) || is_given_up(frontier.unknown(), candidate)
}

/// Whether one of the points is no worse.
fn is_settled(points: &[Point], candidate: Candidate) -> bool
    ensures { result ≡ is_settled points.now candidate }
{
    points
        .iter()
        .any(|point| no_worse(point.candidate(), candidate))
}

/// Whether the candidate is one of those that were given up.
fn is_given_up(unknown: &[Unknown], candidate: Candidate) -> bool
    ensures { result ≡ is_given_up unknown.now candidate }
{
    unknown
        .iter()
        .any(|unknown| candidate == unknown.candidate())
}

/// The first point whose mark does not say whether every better candidate is refuted.
pub(crate) fn marks_denied(points: &[Point], unrefuted: &[Candidate]) -> Option<(Reason, Candidate)>
    ensures { result ≡ option_map (λ p. (Reason.MarkWrong, p.candidate)) (find (λ p. not (has_mark_among unrefuted.now p)) points.now) }
{
    points
        .iter()
        .find(|point| !has_right_mark(point, unrefuted))
        .map(|point| (Reason::MarkWrong, point.candidate()))
}

/// Whether the mark of a point says whether none of these is better.
fn has_right_mark(point: &Point, unrefuted: &[Candidate]) -> bool
    ensures { result ≡ has_mark_among unrefuted.now point.now }
{
    is_mark(!is_bettered(unrefuted, point.candidate()), point.mark())
}

/// Whether one of these is better than the candidate.
fn is_bettered(unrefuted: &[Candidate], candidate: Candidate) -> bool
    ensures { result ≡ is_bettered unrefuted.now candidate }
{
    unrefuted.iter().any(|other| better(*other, candidate))
}

/// Whether the mark says that a point is optimal, where it is, and open, where it is not.
fn is_mark(optimal: bool, mark: Mark) -> bool
    ensures { result ≡ is_mark optimal mark }
{
    match mark {
        Mark::Optimal => optimal,
        Mark::Open => !optimal,
        Mark::Joined { .. } => false,
    }
}
