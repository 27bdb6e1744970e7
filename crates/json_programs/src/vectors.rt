//! A small program as JSON.

ghost use Rattle.std.specs.Prelude.{◌≡◌, ◌∷◌, [], codes};
ghost use Rattle.schedule.specs.Rows.{plan, send};
ghost use Rattle.node_programs.specs.Programs.{programs_of};
ghost use Rattle.json_values.specs.Json.{printed};
ghost use Rattle.json_rules.specs.ProgramsJson.{programs_json};

/// The relay of one chunk along three nodes.
pub fn programs_printed()
    ensures { printed (programs_json 1 (codes "n0" ∷ codes "n1" ∷ codes "n2" ∷ []) (programs_of 3 (plan (1 ∷ 1 ∷ []) (send 0 0 1 1 ∷ send 0 1 2 2 ∷ [])) 0)) ≡ codes "{\"point\":1,\"programs\":[{\"node\":\"n0\",\"ops\":[[1,\"send\",0,\"n1\"]]},{\"node\":\"n1\",\"ops\":[[1,\"take\",0,\"n0\",\"copy\"],[2,\"send\",0,\"n2\"]]},{\"node\":\"n2\",\"ops\":[[2,\"take\",0,\"n1\",\"copy\"]]}]}\n" }
{}
