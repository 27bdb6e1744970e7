//! Lists of events, and how they end.

ghost use Rattle.std.specs.Prelude.{◌≡◌, [], ◌∷◌};
ghost use Rattle.node_programs.specs.{Relay.relay, Stops.stop_of};
ghost use Rattle.replay.specs.Ends.{end_of};

use crate::by_list::ListEnd;

/// Events of the relay along the line of three nodes: all, those of the first step, one that its
/// node cannot do yet, and one too many.
pub fn lists_of_relay_events()
    ensures finished { end_of 4 (stop_of relay (0 ∷ 1 ∷ 1 ∷ 2 ∷ [])) ≡ ListEnd.Finished }
    ensures unfinished { end_of 2 (stop_of relay (0 ∷ 1 ∷ [])) ≡ ListEnd.Unfinished }
    ensures stopped { end_of 1 (stop_of relay (1 ∷ [])) ≡ ListEnd.Stopped 0 }
    ensures one_too_many { end_of 5 (stop_of relay (0 ∷ 1 ∷ 1 ∷ 2 ∷ 0 ∷ [])) ≡ ListEnd.Stopped 4 }
{}
