//! What comes of the search of a candidate's formula.

ghost use Rattle.std.specs.Prelude.{◌≡◌, Bool, List, IfOk};
ghost use Rattle.cnf_formula.specs.Formulas.{Satisfies};
ghost use Rattle.round_encoding.specs.Candidates.{IsEncoding};
ghost use Rattle.candidate_solver.specs.Trying.{Says};

use candidate_order::Outcome;
use cnf_formula::OutOfMemory;
use conflict_ledger::LineLog;
use round_encoding::{Encoding, decode};
use sat_core::SatAnswer;
use std::alloc::Global;

/// What a search says, and the lines of its proof.
#[derive(Drop)]
pub struct Found {
    pub answer: SatAnswer,
    pub lines: LineLog,
}

/// What came of a candidate, and the lines of its search.
#[derive(Drop)]
pub struct Attempt {
    pub outcome: Outcome,
    pub lines: LineLog,
}

/// What the answer of a search says of the candidate that was encoded, where so many lines could be
/// learned: the schedule that a model stands for, that there is none, or that the lines were spent.
/// The only error is `OutOfMemory`.
pub fn outcome_of(
    alloc: Global,
    encoding: &Encoding,
    answer: SatAnswer,
    conflicts: u32,
) -> Result<Outcome, OutOfMemory>
    requires encoding { IsEncoding encoding.now }
    requires model { (values : List Bool) → answer ≡ SatAnswer.Model values → Satisfies values encoding.now.formula }
    ensures { IfOk result (λ outcome. Says encoding.now answer conflicts outcome) }
{
    match answer {
        SatAnswer::Model(values) => {
            let schedule = decode(alloc, encoding, &values)?;
            Ok(Outcome::Solved(schedule))
        }
        SatAnswer::Refuted => Ok(Outcome::Refuted),
        SatAnswer::Spent => Ok(Outcome::Unknown { conflicts }),
    }
}
