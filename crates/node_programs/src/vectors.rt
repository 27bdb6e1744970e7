//! Worked programs and runs.
#![tactic(auto, unfolding(crate::specs::inner::Vectors::digits, crate::specs::Printing::programs_text))]

ghost use Rattle.std.specs.{Prelude.{◌≡◌, ◌/◌, ◌^◌, [], ◌∷◌, true, false, Some, is_some, slice_get, codes}, Option.option_map};
ghost use Rattle.schedule.specs.Rows.{pair_allreduce, plan, send};
ghost use Rattle.node_programs.specs.{Programs.programs_of, Printing.programs_text, Machines.{is_enabled, is_finished}, Relay.{exchange, relay}, Runs.{chosen, next_draw, machine_run}};

use crate::op::Op;
use bag_runs::Mode;

/// A chunk goes along the line of three nodes in two steps.
pub fn relay_in_programs()
    ensures { programs_of 3 (plan (1 ∷ 1 ∷ []) (send 0 0 1 1 ∷ send 0 1 2 2 ∷ [])) 0
        ≡ (Op.Send 0 1 1 ∷ []) ∷ (Op.Take 0 0 1 Mode.Copy ∷ Op.Send 0 2 2 ∷ []) ∷ (Op.Take 0 1 2 Mode.Copy ∷ []) ∷ [] }
{}

/// The text of its programs, and that of two nodes that add and then copy.
pub fn programs_in_text()
    ensures relay { programs_text 1 (codes "n0" ∷ codes "n1" ∷ codes "n2" ∷ []) (programs_of 3 (plan (1 ∷ 1 ∷ []) (send 0 0 1 1 ∷ send 0 1 2 2 ∷ [])) 0)
        ≡ codes "programs 1\nnode n0\n1 send 0 n1\nnode n1\n1 take 0 n0 copy\n2 send 0 n2\nnode n2\n2 take 0 n1 copy\nend\n" }
    ensures joined { programs_text 3 (codes "a" ∷ codes "b" ∷ []) (programs_of 2 pair_allreduce 1)
        ≡ codes "programs 3\nnode a\n1 send 1 b\n1 take 0 b add\n2 send 0 b\n2 take 1 b copy\nnode b\n1 send 0 a\n1 take 1 a add\n2 send 1 a\n2 take 0 a copy\nend\n" }
{}

/// Its nodes can move in this order and no other.
pub fn relay_and_its_events()
    ensures finished { option_map is_finished (machine_run relay (0 ∷ 1 ∷ 1 ∷ 2 ∷ [])) ≡ Some true }
    ensures unfinished { option_map is_finished (machine_run relay (0 ∷ 1 ∷ [])) ≡ Some false }
    ensures stopped { is_some (machine_run relay (1 ∷ [])) ≡ false }
    ensures too_long { is_some (machine_run relay (0 ∷ 1 ∷ 1 ∷ 2 ∷ 0 ∷ [])) ≡ false }
    ensures chosen { chosen relay 0 ≡ 0 ∷ 1 ∷ 1 ∷ 2 ∷ [] }
{}

/// What the generator draws first from seed 0.
pub fn first_draw()
    ensures { next_draw 0 / 2 ^ 33 ≡ 167951807 }
{}

/// Two nodes that send to each other: seed 0 lets node 1 move first.
pub fn two_nodes_at_once()
    ensures first { is_enabled exchange 0 ≡ true }
    ensures second { is_enabled exchange 1 ≡ true }
    ensures moves { slice_get (chosen exchange 0) 0 ≡ Some 1 }
    ensures chosen { option_map is_finished (machine_run exchange (chosen exchange 0)) ≡ Some true }
{}
