//! What the definitions say of runs that only copy, and of those that only add.

ghost use Rattle.bag_runs.specs.Throughout.{AddsThroughout, CopiesThroughout, IsFilledWhereHeld};

/// Where every step copies, a run of bags is the run of the placement from which it begins.
#[tactic(auto, using(crate::proofs::CopiedBags::bags_of_held, crate::proofs::CopiedBags::filled_after))]
pub fn a_run_that_copies_is_that_of_the_placement()
    ensures bags { CopiesThroughout }
    ensures held { IsFilledWhereHeld }
{}

/// Where every step adds, a run of bags is that of the sum.
#[tactic(auto, using(crate::proofs::JoinedSteps::adding_throughout))]
pub fn a_run_that_adds_is_that_of_the_sum()
    ensures { AddsThroughout }
{}
