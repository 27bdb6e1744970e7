//! The joined points of an allreduce.

ghost use Rattle.std.specs.Prelude.{◌≡◌, ◌&&◌, ◌<◌, [], ◌∷◌, All, IfOk, IfNone, length, slice_get};
ghost use Rattle.collective_spec.specs.Collectives.{chunks_of};
ghost use Rattle.allreduce_join.specs.{Joins.{IsJoinable, pairs_of}, Judging.joined_verdict_of};
ghost use Rattle.inversion.specs.Saying.{says_sums};
ghost use Rattle.frontier_audit.specs.{Joining.{IsSummable, joins_checked, same_point}, Beside.denial_of, inner.Steps.{JoinsSay, join_checked, joins_of, pairs_with}};

use crate::verdict::Reason;
use allreduce_join::{all_summed, join_points};
use candidate_order::{Candidate, OutOfMemory, Point};
use collective_spec::{Kind, chunks_of};
use inversion::SumVerdict;
use report_form::Report;
use schedule::Topology;
use std::alloc::Global;

/// The first joined point of an allreduce that is not the join of its two points, or is lacking or
/// one too many. Other collectives join nothing. The only error is `OutOfMemory`.
pub(crate) fn joins_denied(
    alloc: Global,
    report: &Report,
) -> Result<Option<(Reason, Candidate)>, OutOfMemory>
    ensures { IfOk result (λ denied. denied ≡ denial_of (joins_of report.now.words.collective.kind report.now)) }
{
    match report.words().collective().kind {
        Kind::Allreduce => parts_joined(alloc, report),
        _ => Ok(None),
    }
}

/// The same of an allreduce, which has two parts.
fn parts_joined(alloc: Global, report: &Report) -> Result<Option<(Reason, Candidate)>, OutOfMemory>
    requires { report.now.words.collective.kind ≡ Kind.Allreduce }
    ensures { IfOk result (λ denied. denied ≡ denial_of (joins_of report.now.words.collective.kind report.now)) }
{
    let topology = report.topology().topology();
    match report.frontiers() {
        [(_, reduce), (_, gather)] => pairs_denied(
            alloc,
            topology,
            reduce.points(),
            gather.points(),
            report.joined(),
        ),
        _ => Ok(None),
    }
}

/// The first joined point that is not the join of its two points, in the order of the first ones,
/// or is lacking or one too many. The only error is `OutOfMemory`.
fn pairs_denied(
    alloc: Global,
    topology: &Topology,
    reduce: &[Point],
    gather: &[Point],
    joined: &[Point],
) -> Result<Option<(Reason, Candidate)>, OutOfMemory>
    requires reduce { All IsJoinable reduce.now }
    requires gather { All IsJoinable gather.now }
    requires joined { All (IsSummable topology.now) joined.now }
    ensures { IfOk result (λ denied. denied ≡ denial_of (joins_checked topology.now (pairs_of reduce.now gather.now) joined.now)) }
{
    let mut place = 0;
    for first in reduce {
        if let Some(denial) = gathered_denied(alloc, topology, first, gather, joined, &mut place)? {
            return Ok(Some(denial));
        }
    }
    match joined.get(place) {
        None => Ok(None),
        Some(surplus) => Ok(Some((Reason::JoinWrong, surplus.candidate()))),
    }
}

/// The first joined point, from a place on, that is not the join of this point with one of those
/// that have its chunk count. The only error is `OutOfMemory`.
fn gathered_denied(
    alloc: Global,
    topology: &Topology,
    first: &Point,
    gather: &[Point],
    joined: &[Point],
    place: &mut usize,
) -> Result<Option<(Reason, Candidate)>, OutOfMemory>
    requires first { IsJoinable first.now }
    requires gather { All IsJoinable gather.now }
    requires joined { All (IsSummable topology.now) joined.now }
    ensures { IfOk result (JoinsSay topology.now (pairs_with first.now gather.now) joined.now place.old place.new) }
{
    for second in gather {
        if let Some(denial) = pair_denied(alloc, topology, first, second, joined, place)? {
            return Ok(Some(denial));
        }
    }
    Ok(None)
}

/// Whether the joined point at a place is the join of these two, where they have one chunk count;
/// the place behind it is the next. The only error is `OutOfMemory`.
fn pair_denied(
    alloc: Global,
    topology: &Topology,
    first: &Point,
    second: &Point,
    joined: &[Point],
    place: &mut usize,
) -> Result<Option<(Reason, Candidate)>, OutOfMemory>
    requires first { IsJoinable first.now }
    requires second { IsJoinable second.now }
    requires joined { All (IsSummable topology.now) joined.now }
    ensures { IfOk result (JoinsSay topology.now (pairs_with first.now (second.now ∷ [])) joined.now place.old place.new) }
{
    if second.candidate().c != first.candidate().c {
        return Ok(None);
    }
    if let Some(denial) = join_denied(alloc, topology, first, second, joined, *place)? {
        return Ok(Some(denial));
    }
    *place += 1;
    Ok(None)
}

/// Whether the joined point at a place is the join of two points, which sums everything. The only
/// error is `OutOfMemory`.
fn join_denied(
    alloc: Global,
    topology: &Topology,
    first: &Point,
    second: &Point,
    joined: &[Point],
    place: usize,
) -> Result<Option<(Reason, Candidate)>, OutOfMemory>
    requires same_count { second.now.candidate.c ≡ first.now.candidate.c }
    requires first { IsJoinable first.now }
    requires second { IsJoinable second.now }
    requires joined { All (IsSummable topology.now) joined.now }
    ensures denied { IfOk result (λ denied. denied ≡ denial_of (join_checked topology.now (first.now, second.now) (slice_get joined.now place))) }
    ensures place { IfOk result (λ denied. IfNone denied (place < length joined.now)) }
{
    let due = join_points(alloc, first, second)?;
    let Some(printed) = joined.get(place) else {
        return Ok(Some((Reason::JoinWrong, due.candidate())));
    };
    if is_due(alloc, topology, &due, printed, first.candidate().s)? {
        Ok(None)
    } else {
        Ok(Some((Reason::JoinWrong, due.candidate())))
    }
}

/// Whether a printed point is the one that is due, and sums everything where so many first steps
/// add. The only error is `OutOfMemory`.
fn is_due(
    alloc: Global,
    topology: &Topology,
    due: &Point,
    printed: &Point,
    adding: u8,
) -> Result<bool, OutOfMemory>
    requires { IsSummable topology.now printed.now }
    ensures { IfOk result (λ is. is ≡ (same_point due.now printed.now && says_sums (joined_verdict_of topology.now (chunks_of Kind.Allreduce topology.now.nodes printed.now.candidate.c) printed.now.schedule adding))) }
{
    if is_same_point(due, printed) {
        does_join(alloc, topology, printed, adding)
    } else {
        Ok(false)
    }
}

/// Whether the schedule of a joined point, of which so many first steps add, sums every chunk at
/// every node. The only error is `OutOfMemory`.
fn does_join(
    alloc: Global,
    topology: &Topology,
    point: &Point,
    adding: u8,
) -> Result<bool, OutOfMemory>
    requires { IsSummable topology.now point.now }
    ensures { IfOk result (λ joins. joins ≡ says_sums (joined_verdict_of topology.now (chunks_of Kind.Allreduce topology.now.nodes point.now.candidate.c) point.now.schedule adding)) }
{
    let chunks = chunks_of(Kind::Allreduce, topology.nodes(), point.candidate().c);
    let verdict = all_summed(alloc, topology, chunks, point.schedule(), adding)?;
    Ok(matches!(verdict, SumVerdict::Sums))
}

/// Whether two points are the same.
fn is_same_point(a: &Point, b: &Point) -> bool
    ensures { result ≡ same_point a.now b.now }
{
    a.candidate() == b.candidate()
        && a.schedule().rounds() == b.schedule().rounds()
        && a.schedule().sends() == b.schedule().sends()
        && a.mark() == b.mark()
}
