//! What the verdict on a sum says.

ghost use Rattle.std.specs.Prelude.{◌≡◌, ◌↔◌, length, sum};
ghost use Rattle.schedule.specs.{Links.TopologyValue, Placed.PlacementValue, Sends.ScheduleValue, Summing.Sums};
ghost use Rattle.inversion.specs.Judging.{sum_verdict_of};

use crate::verdict::SumVerdict;

/// The verdict is `Sums` exactly where the schedule sums what is demanded, in its own number of
/// steps and of rounds.
#[tactic(auto, using(crate::proofs::Told::sums_exactly))]
pub fn sums_are_told_exactly()
    ensures { (t : TopologyValue) (demand : PlacementValue) (s : ScheduleValue)
        → (sum_verdict_of t demand s ≡ SumVerdict.Sums) ↔ Sums t demand s (length s.rounds) (sum s.rounds) }
{}
