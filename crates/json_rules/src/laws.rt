//! What is read by the tables is what the calls that read JSON answer.

ghost use Rattle.std.specs.Prelude.{◌≡◌, ℕ, List};
ghost use Rattle.topology_text.specs.Reading.{topology_of};
ghost use Rattle.report_form.specs.Reading.{report_of};
ghost use Rattle.json_values.specs.{Answer.topology_of_json, Reading.read_json, TopologyForm.topology};
ghost use Rattle.json_rules.specs.{Answer.report_of_json, ReportForm.report};

/// The topology that JSON of the form stands for, whatever names the table is given.
pub fn topology_is_of_its_form()
    ensures { (names : List (List ℕ)) (bytes : List ℕ) → read_json (topology names) topology_of bytes ≡ topology_of_json bytes }
{}

/// The same of a report.
pub fn report_is_of_its_form()
    ensures { (names : List (List ℕ)) (bytes : List ℕ) → read_json (report names) report_of bytes ≡ report_of_json bytes }
{}
