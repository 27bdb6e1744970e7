//! How the points of a part of a report add up.

ghost use Rattle.std.specs.Prelude.{◌≡◌, ◌&&◌, not, length};
ghost use Rattle.collective_spec.specs.Collectives.{adds_up};
ghost use Rattle.replay_text.specs.Showing.{is_joined, steps_that_add};

use candidate_order::{Mark, Point};
use collective_spec::Spec;
use outer_ports::Part;

/// Whether the points of this part join two others.
pub(crate) fn is_joined(part: Part) -> bool
    ensures { result ≡ is_joined part }
{
    match part {
        Part::Joined => true,
        Part::Whole | Part::Reduce | Part::Gather => false,
    }
}

/// Whether a part's points copy: they join no others, and what is asked for is not added up.
pub(crate) fn copies(part: Part, spec: &Spec) -> bool
    ensures { result ≡ (not (is_joined part) && not (adds_up spec.now)) }
{
    !is_joined(part) && !spec.adds_up()
}

/// How many of the first steps of a point that adds up do: those that its mark says, or all.
pub(crate) fn steps_that_add(point: &Point) -> u8
    ensures { result ≡ steps_that_add point.now.mark (length point.now.schedule.rounds) }
{
    match point.mark() {
        Mark::Joined { adding } => adding,
        Mark::Optimal | Mark::Open => point.schedule().rounds().len() as u8,
    }
}
