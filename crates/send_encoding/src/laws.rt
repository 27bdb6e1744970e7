//! Laws of the formula's first half.

ghost use Rattle.std.specs.Prelude.{◌+◌, ◌*◌, ◌≤◌, ℕ, length};
ghost use Rattle.schedule.specs.{Links.TopologyValue, Placed.PlacementValue};
ghost use Rattle.send_encoding.specs.{Variables.{map_of, sends}, Sending.sending};

/// Arrivals and sends have few clauses: three for each send, two for each chunk and node, and for
/// these and each step two more, beside one for each two links into the node, of which there are no
/// more than pairs of nodes.
#[tactic(auto, using(crate::proofs::FewClauses::few_clauses))]
pub fn sends_have_few_clauses()
    ensures { (t : TopologyValue) (pre post : PlacementValue) (steps : ℕ) → length (sending (map_of t pre steps) pre post) ≤ pre.chunks * t.nodes * (2 + steps * (2 + t.nodes * t.nodes)) + sends (map_of t pre steps) * 3 }
{}
