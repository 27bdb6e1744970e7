//! How much a search found.

ghost use Rattle.std.specs.Prelude.{◌≡◌, ◌+◌, IfOk};
ghost use Rattle.trial_command.specs.Counts.{points_in, refuted_in, unknown_in};

use crate::OutOfMemory;
use report_form::Report;

/// How many points, refuted and unknown candidates there are in all parts.
#[derive(Clone, Copy, Debug, PartialEq, Eq)]
pub(crate) struct Counts {
    pub points: u64,
    pub refuted: u64,
    pub unknown: u64,
}

/// The sum of the two. A sum that does not fit is answered as out of memory, since no memory holds
/// so many things.
pub(crate) fn plus(a: u64, b: u64) -> Result<u64, OutOfMemory>
    ensures { IfOk result (λ sum. sum ≡ a + b) }
{
    a.checked_add(b).ok_or(OutOfMemory)
}

/// How much was found in all parts. The only error is `OutOfMemory`.
pub(crate) fn counts_of(report: &Report) -> Result<Counts, OutOfMemory>
    ensures points { IfOk result (λ counts. counts.points ≡ points_in report.now) }
    ensures refuted { IfOk result (λ counts. counts.refuted ≡ refuted_in report.now) }
    ensures unknown { IfOk result (λ counts. counts.unknown ≡ unknown_in report.now) }
{
    let mut counts = Counts {
        points: 0,
        refuted: 0,
        unknown: 0,
    };
    for (_, frontier) in report.frontiers() {
        counts.points = plus(counts.points, frontier.points().len() as u64)?;
        counts.refuted = plus(counts.refuted, frontier.refuted().len() as u64)?;
        counts.unknown = plus(counts.unknown, frontier.unknown().len() as u64)?;
    }
    Ok(counts)
}
