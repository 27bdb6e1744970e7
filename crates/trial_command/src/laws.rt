//! What trials of one number have in common.

ghost use Rattle.std.specs.Prelude.{◌≡◌, ℕ, List};
ghost use Rattle.trial_command.specs.Counts.{points_in, refuted_in, unknown_in};
ghost use Rattle.run_rules.specs.Tries.{Tries};

/// Two trials of one number whose reports leave nothing unknown count as many points, and as many
/// refuted candidates.
pub fn settled_trials_count_the_same()
    ensures points { (n : ℕ) (a b : List ℕ) (first : Tries n a) (second : Tries n b)
        → unknown_in first.report ≡ 0 → unknown_in second.report ≡ 0 → points_in first.report ≡ points_in second.report }
    ensures refuted { (n : ℕ) (a b : List ℕ) (first : Tries n a) (second : Tries n b)
        → unknown_in first.report ≡ 0 → unknown_in second.report ≡ 0 → refuted_in first.report ≡ refuted_in second.report }
{}
