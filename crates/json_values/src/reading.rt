//! The value that bytes are, and the text that it stands for.

ghost use Rattle.std.specs.Prelude.{◌≡◌, ◌⊎◌, None, Some, IfOk, IfErr, option_map};
ghost use Rattle.text_lines.specs.Text.{text_of};
ghost use Rattle.serde_json.specs.View.{view};
ghost use Rattle.json_values.specs.{Json.value_of, Answer.{text_of_json, GivesText}, declared.fault.JsonCode.JsonCode};

use crate::fault::JsonCode;
use crate::tokens::Lines;
use serde_json::Value;
use std::alloc::Global;
use text_lines::Stop;

/// The value that the bytes are: only UTF-8, and nothing deeper than 127.
fn value_of(alloc: Global, bytes: &[u8]) -> Result<Value, JsonCode>
    ensures value { IfOk result (λ v. value_of bytes.now ≡ Some (view v)) }
    ensures err { IfErr result (λ code. (code ≡ JsonCode.OutOfMemory) ⊎ ((code ≡ JsonCode.NotJson) × (value_of bytes.now ≡ None))) }
{
    match Value::from_slice(alloc, bytes) {
        Ok(value) => Ok(value),
        Err(error) => if error.is_memory() {
            Err(JsonCode::OutOfMemory)
        } else {
            Err(JsonCode::NotJson)
        },
    }
}

/// The text that the JSON stands for. `NotJson` comes exactly where the bytes are no JSON, and
/// `BadShape` exactly where their value does not have the form.
pub fn text_in<P: Lines>(alloc: Global, form: &P, bytes: &[u8]) -> Result<Vec<u8>, JsonCode>
    ensures { GivesText result (text_of_json (λ d. option_map text_of (P.lines form.now d)) bytes.now) }
{
    let value = value_of(alloc, bytes)?;
    let mut text = Vec::new(alloc);
    match form.push_lines(&mut text, &value) {
        Ok(()) => Ok(text),
        Err(Stop::Memory) => Err(JsonCode::OutOfMemory),
        Err(Stop::Refused(())) => Err(JsonCode::BadShape),
    }
}
