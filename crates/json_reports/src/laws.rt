//! Laws of the JSON of reports.

ghost use Rattle.std.specs.Prelude.{◌≡◌, ◌*◌, ◌≤◌, ℕ, List, length, Ok, Some};
ghost use Rattle.report_form.specs.{Reports.{ReportValue, IsReport}, Spelling.report_lines};
ghost use Rattle.json_values.specs.Answer.{text_of_json};
ghost use Rattle.json_rules.specs.ReportJson.{report_json, report_in, report_text_in};

/// The JSON of a report stands for the report's text.
pub fn report_json_stands_for_its_text()
    ensures { (r : ReportValue) → IsReport r → report_in (report_json r) ≡ Some (report_lines r) }
{}

/// The text that the JSON of a report stands for is at most 2,000 times as long as the JSON, so
/// that of 1,048,576 bytes it is shorter than 2 GiB.
pub fn text_of_report_json_is_short()
    ensures { (bytes text : List ℕ) → text_of_json report_text_in bytes ≡ Ok text → length text ≤ 2000 * length bytes }
{}
