//! The report that JSON stands for.

ghost use Rattle.std.specs.Prelude.{◌≡◌, ◌≤◌, Some, length, IfOk};
ghost use Rattle.serde_json.specs.Data.{Data};
ghost use Rattle.report_form.specs.{Reports.IsReport, Spelling.report_text};
ghost use Rattle.json_values.specs.{Json.value_of, Answer.Answers};
ghost use Rattle.json_rules.specs.{ReportJson.report_text_in, Answer.report_of_json};

use frontier_report::read_report;
use json_reports::ReportLines;
use json_values::{JsonCode, JsonFault, text_in};
use report_form::{Report, ReportCode};
use std::alloc::Global;

/// The report whose text the JSON stands for, of at most 1,048,576 bytes of JSON. `NotJson` comes
/// exactly where the bytes are no JSON, `BadShape` exactly where their value does not have the
/// form, and `BadText` exactly where `read_report` refuses its text, with that line.
pub fn report_from_json(alloc: Global, bytes: &[u8]) -> Result<Report, JsonFault>
    requires { length bytes.now ≤ 1048576 }
    // What is read is JSON of the form, which stands for the text of the report.
    ensures found { IfOk result (λ r. IsReport r × (d : Data) × (value_of bytes.now ≡ Some d) × (report_text_in d ≡ Some (report_text r))) }
    // Which check fails first, and on which line of the text.
    ensures exact { Answers result (report_of_json bytes.now) }
{
    let text = match text_in(alloc, &ReportLines, bytes) {
        Ok(text) => text,
        Err(code) => return Err(JsonFault { code, place: 0 }),
    };
    match read_report(alloc, &text) {
        Ok(report) => Ok(report),
        Err(refused) => Err(if refused.code == ReportCode::OutOfMemory {
            JsonFault {
                code: JsonCode::OutOfMemory,
                place: 0,
            }
        } else {
            JsonFault {
                code: JsonCode::BadText,
                place: refused.line,
            }
        }),
    }
}
