/// Why a line was refused: the first of its checks that failed.
#[derive(Clone, Copy, Debug, PartialEq, Eq)]
pub enum LineCode {
    /// The id is not greater than the number of clauses of the formula and than the id of every
    /// accepted addition.
    IdNotGreater = 1,
    /// The hint names no clause that is held.
    UnknownHint = 2,
    /// The hint's clause has at least two literals that are not false.
    HintNotUnit = 3,
    /// The hints, or those of a group, ended without a conflict.
    NoConflict = 4,
    /// The hint stands after a conflict.
    HintsAfterConflict = 5,
    /// A deletion names a clause that is not held, or one clause twice.
    UnknownDeletion = 7,
    /// A variable of the clause is not one of the formula's.
    VariableRange = 8,
    /// A variable stands twice in the clause.
    VariableTwice = 9,
    /// The clause has no first literal for a group to be about.
    NoPivot = 10,
    /// The negation of the first literal does not stand in the clause that the group is for.
    PivotNotNegated = 11,
    /// The clause had a group before.
    GroupTwice = 12,
    /// A clause with the negation of the first literal has no group, and is not satisfied without
    /// one.
    GroupMissing = 13,
}

/// The verdict on a line. `implied` is whether it is an addition that follows from what is held
/// (RUP), and not one that is only redundant (RAT), nor a deletion. `hint` is the place of the hint
/// that the code is about, counted from 0, and 0 where the code is about none.
#[derive(Clone, Copy, Debug, PartialEq, Eq)]
pub enum LineVerdict {
    Accepted { implied: bool },
    Refused { code: LineCode, hint: u64 },
}

impl LineVerdict {
    ghost use Rattle.std.specs.Prelude.{◌≡◌};
    ghost use Rattle.proof_rules.specs.Judging.{is_accepted};

    /// Whether the line was accepted.
    pub fn is_accepted(self) -> bool
        ensures { result ≡ is_accepted self }
    {
        matches!(self, LineVerdict::Accepted { .. })
    }
}
