ghost use Rattle.std.specs.Prelude.{◌≡◌};
ghost use Rattle.engine_rules.specs.Outcomes.{kind_of};

use candidate_order::Outcome;

/// What kind of outcome a candidate had.
#[derive(Clone, Copy, Debug, PartialEq, Eq)]
pub enum Settled {
    /// A schedule solves it.
    Solved,
    /// No schedule does.
    Refuted,
    /// It was given up.
    Unknown,
}

impl Settled {
    /// The kind of an outcome.
    pub fn of(outcome: &Outcome) -> Settled
        ensures { result ≡ kind_of outcome.now }
    {
        match outcome {
            Outcome::Solved(_) => Settled::Solved,
            Outcome::Refuted => Settled::Refuted,
            Outcome::Unknown { .. } => Settled::Unknown,
        }
    }
}
