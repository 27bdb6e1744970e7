//! The points of an allreduce: the joins of those that reduce with those that gather.

ghost use Rattle.std.specs.Prelude.{◌≡◌, ◌==◌, ◌++◌, map, filter, All, IfOk, OnOk};
ghost use Rattle.allreduce_join.specs.Joins.{IsJoinable, join_of};
ghost use Rattle.report_search.specs.inner.Reporting.{joins_of};

use crate::OutOfMemory;
use allreduce_join::join_points;
use candidate_order::Point;
use std::alloc::Global;

/// Adds the joins of a point with each of the others that has its chunk count, in their order.
fn join_each(
    alloc: Global,
    joined: &mut Vec<Point>,
    first: &Point,
    gather: &[Point],
) -> Result<(), OutOfMemory>
    requires first { IsJoinable first.now }
    requires gather { All IsJoinable gather.now }
    ensures { OnOk result (joined.new.items ≡ joined.old.items ++ map (join_of first.now) (filter (λ q. q.candidate.c == first.now.candidate.c) gather.now)) }
{
    for second in gather {
        if second.candidate().c == first.candidate().c {
            joined.push(join_points(alloc, first, second)?)?;
        }
    }
    Ok(())
}

/// The joins of each point of the first list with each of the second that has its chunk count, in
/// their order.
pub(crate) fn joins(
    alloc: Global,
    reduce: &[Point],
    gather: &[Point],
) -> Result<Vec<Point>, OutOfMemory>
    requires reduce { All IsJoinable reduce.now }
    requires gather { All IsJoinable gather.now }
    ensures { IfOk result (λ joined. joined.items ≡ joins_of reduce.now gather.now) }
{
    let mut joined = Vec::new(alloc);
    for first in reduce {
        join_each(alloc, &mut joined, first, gather)?;
    }
    Ok(joined)
}
