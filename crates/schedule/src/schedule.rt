ghost use Rattle.std.specs.Prelude.{◌≡◌, ◌==◌, filter};
ghost use Rattle.schedule.specs.Sends.{ScheduleValue, IsSchedule};

use crate::hop::Hop;
use std::marker::Model;

/// The number of rounds of each step, and the sends, in ascending order by step, chunk, from and
/// to.
#[derive(Clone, Debug, Drop)]
pub struct Schedule {
    rounds: Vec<u8>,
    sends: Vec<Hop>,
}

impl Model for Schedule {
    ghost use Rattle.schedule.specs.Sends.{ScheduleValue, IsSchedule};

    ghost Value = { ScheduleValue };

    ghost view = { λ s. record { rounds = s.rounds.items; sends = s.sends.items } };

    ghost invariant = { λ s. IsSchedule (record { rounds = s.rounds.items; sends = s.sends.items }) };
}

impl Schedule {
    /// The schedule of 1 to 16 steps, each of 1 to 9 rounds, and of these sends, each of one of the
    /// steps, in strictly ascending order by step, chunk, from and to.
    pub fn new(rounds: Vec<u8>, sends: Vec<Hop>) -> Schedule
        requires { IsSchedule (record { rounds = rounds.items; sends = sends.items }) }
        ensures { result ≡ record { rounds = rounds.items; sends = sends.items } }
    {
        Schedule { rounds, sends }
    }

    /// The rounds of each step, from 1 to 9; there are 1 to 16 steps.
    pub fn rounds(&self) -> &[u8]
        ensures rounds { result.now ≡ self.now.rounds }
        ensures limits { IsSchedule self.now }
    {
        &self.rounds
    }

    /// The sends, in strictly ascending order by step, chunk, from and to.
    pub fn sends(&self) -> &[Hop]
        ensures sends { result.now ≡ self.now.sends }
        ensures limits { IsSchedule self.now }
    {
        &self.sends
    }

    /// The sends of a step, which stand side by side.
    pub fn sends_of(&self, step: u8) -> &[Hop]
        ensures sends { result.now ≡ filter (λ h. h.step == step) self.now.sends }
        ensures limits { IsSchedule self.now }
    {
        let sends = self.sends.as_slice();
        let (until, _) = sends.split_at(sends.partition_point(|hop| hop.step <= step));
        let (_, these) = until.split_at(until.partition_point(|hop| hop.step < step));
        these
    }
}
