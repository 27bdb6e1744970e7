//! Topologies and reports that are read from JSON.

ghost use Rattle.std.specs.Prelude.{◌≢◌, ◌≤◌, length, IfOk};
ghost use Rattle.json_values.specs.Answer.{json_number};
ghost use Rattle.run_rules.specs.{Answers.{IsAnswerAlone, Says}, Refusals.{refusal_line, refused_at}, Tasks.{limit, unjson_asked}};

use crate::OutOfMemory;
use command_words::JsonWhat;
use json_exchange::{JsonCode, JsonFault, report_from_json, topology_from_json};
use report_printing::print_report;
use run_rules::{Answer, Status, refusal};
use std::alloc::Global;
use topology_text::print_topology;

/// The refusal of bytes that are not the JSON of what is asked for.
fn bad_json(alloc: Global, fault: JsonFault) -> Result<Answer, OutOfMemory>
    ensures code { IfOk result (λ _. fault.code ≢ JsonCode.OutOfMemory) }
    ensures says { IfOk result (λ a. Says Status.BadJson (refusal_line (refused_at Status.BadJson (json_number fault.code) fault.place)) a.status a.text.items) }
{
    match fault.code {
        JsonCode::OutOfMemory => Err(OutOfMemory),
        code => refusal(
            alloc,
            Status::BadJson,
            u64::from(code.number()),
            u64::from(fault.place),
        ),
    }
}

/// The text of the topology that the bytes are the JSON of, or their refusal.
fn topology_read(alloc: Global, bytes: &[u8]) -> Result<Answer, OutOfMemory>
    ensures { IfOk result (λ a. IsAnswerAlone (unjson_asked JsonWhat.Topology bytes.now) a.status a.text.items) }
{
    match topology_from_json(alloc, bytes) {
        Ok(topology) => {
            let text = print_topology(alloc, &topology)?;
            Ok(Answer {
                status: Status::Done,
                text,
            })
        }
        Err(fault) => bad_json(alloc, fault),
    }
}

/// The text of the report that the bytes are the JSON of, or their refusal.
fn report_read(alloc: Global, bytes: &[u8]) -> Result<Answer, OutOfMemory>
    requires short { length bytes.now ≤ limit }
    ensures { IfOk result (λ a. IsAnswerAlone (unjson_asked JsonWhat.Report bytes.now) a.status a.text.items) }
{
    match report_from_json(alloc, bytes) {
        Ok(report) => {
            let text = print_report(alloc, &report)?;
            Ok(Answer {
                status: Status::Done,
                text,
            })
        }
        Err(fault) => bad_json(alloc, fault),
    }
}

/// The answer to JSON that came whole: the text of the topology or of the report that it stands
/// for; or the refusal of bytes that are no JSON, of a value that does not have the form, or of the
/// text that it stands for, with the line of that text. The only error is `OutOfMemory`.
pub fn unjson_answer(alloc: Global, what: JsonWhat, bytes: &[u8]) -> Result<Answer, OutOfMemory>
    requires short { length bytes.now ≤ limit }
    requires single { what ≢ JsonWhat.Programs }
    ensures { IfOk result (λ a. IsAnswerAlone (unjson_asked what bytes.now) a.status a.text.items) }
{
    match what {
        JsonWhat::Topology => topology_read(alloc, bytes),
        JsonWhat::Report => report_read(alloc, bytes),
        JsonWhat::Programs => unreachable!(),
    }
}
