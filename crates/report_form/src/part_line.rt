//! The line that begins a part of a report.

ghost use Rattle.std.specs.Prelude.{◌≡◌};
ghost use Rattle.report_form.specs.Reading.{part_bytes};

use outer_ports::Part;

/// The line that begins a part, without its line feed.
pub fn part_bytes(part: Part) -> &'static [u8]
    ensures { result.now ≡ part_bytes part }
{
    match part {
        Part::Whole => b"frontier whole",
        Part::Reduce => b"frontier reduce",
        Part::Gather => b"frontier gather",
        Part::Joined => b"joined",
    }
}
