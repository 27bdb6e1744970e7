//! What the definitions give on small points.

ghost use Rattle.std.specs.Prelude.{◌≡◌, None, Some, codes};
ghost use Rattle.replay_text.specs.{Showing.shown_text, Rows.{broadcast_point, joined_point}};

/// The replay of a broadcast in an order, and that of the joined point of an allreduce.
pub fn replays()
    ensures broadcast { shown_text 1 broadcast_point (Some 0) ≡ codes "replay 1\nstep 0\nn0 0\nn1\nstep 1\nn0 0\nn1 0\nholds\norder 0\nevents 2\nmoves n0 n1\nn0 0\nn1 0\nend\n" }
    ensures joined { shown_text 3 joined_point None ≡ codes "replay 3\nstep 0\nn0 0=10 1=10\nn1 0=01 1=01\nstep 1\nn0 0=11 1=10\nn1 0=01 1=11\nstep 2\nn0 0=11 1=11\nn1 0=11 1=11\nholds\nend\n" }
{}
