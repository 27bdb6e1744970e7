ghost use Rattle.std.specs.Prelude.{◌≡◌};
ghost use Rattle.candidate_order.specs.Ranges.{unpruned};

/// What a search may leave out, so that it ends sooner and says no less.
#[derive(Clone, Copy, Debug, PartialEq, Eq)]
pub struct Pruning {
    /// Candidates that a set of nodes refutes by counting are refuted without a formula.
    pub cuts: bool,
    /// Of schedules that differ in chunks that may be exchanged, only those in order are sought.
    pub ordered: bool,
}

impl Pruning {
    /// Nothing is left out.
    pub fn none() -> Pruning
        ensures { result ≡ unpruned }
    {
        Pruning {
            cuts: false,
            ordered: false,
        }
    }
}
