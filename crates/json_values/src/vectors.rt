//! Small topologies as JSON.
#![tactic(auto, unfolding(crate::proofs::OnLiterals::topology_json_on_literals))]

ghost use Rattle.std.specs.Prelude.{◌≡◌, ◌∷◌, [], codes, Ok, Err};
ghost use Rattle.schedule.specs.Rows.{line_of_2};
ghost use Rattle.topology_text.specs.Value.{named};
ghost use Rattle.json_values.specs.{declared.fault.JsonCode.JsonCode, Json.printed, TopologyJson.topology_json, Answer.topology_of_json, Rows.{moved, two_nodes_json, moved_json}};

/// Two nodes in a row; and three nodes, of which the first has a chunk that the third is to have.
pub fn topologies_printed()
    ensures two_nodes { printed (topology_json (named (codes "n0" ∷ codes "n1" ∷ []) line_of_2.groups)) ≡ two_nodes_json (codes "1") }
    ensures moved { printed (topology_json moved) ≡ moved_json (codes "\"a\"") }
{}

/// The JSON of the same topologies is read as these topologies.
pub fn topologies_read()
    ensures two_nodes { topology_of_json (two_nodes_json (codes "1")) ≡ Ok (named (codes "n0" ∷ codes "n1" ∷ []) line_of_2.groups) }
    ensures moved { topology_of_json (moved_json (codes "\"a\"")) ≡ Ok moved }
    ensures any_order { topology_of_json (codes " {\"version\" : 1,\"nodes\":[\"n1\"], \"nodes\":[\"n0\"],\"groups\":[]}") ≡ Ok (named (codes "n0" ∷ []) []) }
{}

/// What is refused for each of the three causes.
pub fn topologies_refused()
    ensures no_json { topology_of_json (codes "{") ≡ Err (JsonCode.NotJson, 0) }
    ensures no_bytes { topology_of_json [] ≡ Err (JsonCode.NotJson, 0) }
    ensures no_topology { topology_of_json (codes "{}") ≡ Err (JsonCode.BadShape, 0) }
    ensures fraction { topology_of_json (two_nodes_json (codes "1.0")) ≡ Err (JsonCode.BadShape, 0) }
    ensures no_name { topology_of_json (moved_json (codes "\"A\"")) ≡ Err (JsonCode.BadShape, 0) }
    ensures wide { topology_of_json (two_nodes_json (codes "17")) ≡ Err (JsonCode.BadText, 3) }
    ensures unknown_node { topology_of_json (moved_json (codes "\"d\"")) ≡ Err (JsonCode.BadText, 6) }
{}
