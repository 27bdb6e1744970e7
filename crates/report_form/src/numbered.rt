//! The points of a report by their numbers.

ghost use Rattle.std.specs.Prelude.{◌≡◌, Some, None, IfSome, IfNone};
ghost use Rattle.report_form.specs.Numbered.{point_at};

use crate::report::Report;
use candidate_order::Point;
use outer_ports::Part;

/// The point with this number, and its part: points are numbered from 1 in printed order, joined
/// ones last. `None` comes exactly where there is no such point.
pub fn point_at(report: &Report, number: u32) -> Option<(Part, &Point)>
    ensures some { IfSome result (λ found. point_at report.now number ≡ Some (found.0, found.1.now)) }
    ensures none { IfNone result (point_at report.now number ≡ None) }
{
    if number == 0 {
        return None;
    }
    let mut left = number as usize - 1;
    for (part, frontier) in report.frontiers() {
        let points = frontier.points();
        if left < points.len() {
            return Some((*part, &points[left]));
        }
        left -= points.len();
    }
    let joined = report.joined();
    if left < joined.len() {
        return Some((Part::Joined, &joined[left]));
    }
    None
}
