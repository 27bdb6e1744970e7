//! What the definitions give for small trials.

ghost use Rattle.std.specs.Prelude.{◌≡◌, [], ◌∷◌, codes};
ghost use Rattle.candidate_order.specs.Ranges.{unpruned};
ghost use Rattle.topology_families.specs.Family.{family_of};
ghost use Rattle.run_rules.specs.Trials.{trial_text, trial_words};
ghost use Rattle.trial_command.specs.{Counts.trial_topology, Rows.refuted_trial};

use collective_spec::Kind;
use topology_families::FamilyKind;

/// The searches of two trials, and the text of the first.
pub fn trials()
    ensures topology { trial_topology 3333 ≡ family_of FamilyKind.Ring 4 }
    ensures words { trial_words 3333 ≡ record { collective = record { kind = Kind.Broadcast; root = 0 }; limits = record { k = 1; max_s = 3; max_c = 2; conflicts = 2000; pruning = unpruned } } }
    ensures first { trial_text 0 (refuted_trial 0 (record { s = 1; r = 1; c = 1 } ∷ [])) ≡ codes "trial 0\nsynth collective=broadcast k=0 steps=1 chunks=1 conflicts=2000 root=n0\nfamily line 3\npoints 0 refuted 1 unknown 0 joined 0\ncheck verified\nreplays 0 events 0\nend\n" }
{}
