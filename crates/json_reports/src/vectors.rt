//! Small reports as JSON.
#![tactic(auto, unfolding(crate::proofs::OnLiterals::report_json_on_literals))]

ghost use Rattle.std.specs.Prelude.{◌≡◌, true, false, [], codes, Ok, Err};
ghost use Rattle.report_form.specs.Rows.{broadcast_report, allreduce_report, pruned_report};
ghost use Rattle.json_values.specs.{declared.fault.JsonCode.JsonCode, Json.printed};
ghost use Rattle.json_rules.specs.{ReportJson.report_json, Answer.report_of_json};
ghost use Rattle.json_reports.specs.Rows.{broadcast_json, allreduce_json, pruned_json};

/// The JSON of broadcasts, one with something left out, and of an allreduce on two nodes.
pub fn reports_printed()
    ensures broadcast { printed (report_json broadcast_report) ≡ broadcast_json (codes "[1]") (codes "[]") (codes "\"root\":\"n0\",") }
    ensures allreduce { printed (report_json allreduce_report) ≡ allreduce_json (codes "\"adding\":1,\"c\":1,\"mark\":\"joined\"") }
    ensures pruned { printed (report_json pruned_report) ≡ pruned_json (codes "\"cuts\":\"yes\",") (codes "\"ordered\":\"yes\",") }
{}

/// The JSON of the same reports is read as these reports.
pub fn reports_read()
    ensures broadcast { report_of_json (broadcast_json (codes "[1]") (codes "[]") (codes "\"root\":\"n0\",")) ≡ Ok broadcast_report }
    ensures allreduce { report_of_json (allreduce_json (codes "\"adding\":1,\"c\":1,\"mark\":\"joined\"")) ≡ Ok allreduce_report }
    ensures pruned { report_of_json (pruned_json (codes "\"cuts\":\"yes\",") (codes "\"ordered\":\"yes\",")) ≡ Ok pruned_report }
    ensures other_order { report_of_json (pruned_json (codes "\"ordered\":\"yes\",") (codes "\"cuts\":\"yes\",")) ≡ Ok pruned_report }
    ensures ordered { report_of_json (pruned_json [] (codes "\"ordered\":\"yes\",")) ≡ Ok (record pruned_report { words = record { collective = pruned_report.words.collective; limits = record pruned_report.words.limits { pruning = record { cuts = false; ordered = true } } } }) }
{}

/// What is refused: for its shape, or at a line of its text.
pub fn reports_refused()
    ensures no_json { report_of_json (codes "{") ≡ Err (JsonCode.NotJson, 0) }
    ensures no_report { report_of_json (codes "{}") ≡ Err (JsonCode.BadShape, 0) }
    ensures fraction { report_of_json (broadcast_json (codes "[1.0]") (codes "[]") (codes "\"root\":\"n0\",")) ≡ Err (JsonCode.BadShape, 0) }
    ensures joined { report_of_json (broadcast_json (codes "[1]") (codes "[0]") (codes "\"root\":\"n0\",")) ≡ Err (JsonCode.BadShape, 0) }
    ensures mark { report_of_json (allreduce_json (codes "\"c\":1,\"mark\":\"joined\"")) ≡ Err (JsonCode.BadShape, 0) }
    ensures rounds { report_of_json (broadcast_json (codes "[2]") (codes "[]") (codes "\"root\":\"n0\",")) ≡ Err (JsonCode.BadText, 9) }
    ensures no_root { report_of_json (broadcast_json (codes "[1]") (codes "[]") []) ≡ Err (JsonCode.BadText, 2) }
    ensures cuts { report_of_json (pruned_json (codes "\"cuts\":\"no\",") []) ≡ Err (JsonCode.BadShape, 0) }
    ensures no_text { report_of_json (pruned_json (codes "\"cuts\":true,") (codes "\"ordered\":\"yes\",")) ≡ Err (JsonCode.BadShape, 0) }
    ensures ordered { report_of_json (pruned_json (codes "\"cuts\":\"yes\",") (codes "\"ordered\":\"\",")) ≡ Err (JsonCode.BadShape, 0) }
    ensures other_key { report_of_json (pruned_json (codes "\"kept\":\"yes\",") []) ≡ Err (JsonCode.BadShape, 0) }
    ensures other_root { report_of_json (broadcast_json (codes "[1]") (codes "[]") (codes "\"root\":\"n9\",")) ≡ Err (JsonCode.BadText, 4) }
{}
