//! Answers: a status and a text; and those of refusals.

ghost use Rattle.std.specs.Prelude.{IfOk};
ghost use Rattle.run_rules.specs.{Answers.Says, Refusals.{refusal_line, refused_at, refused_word}, Tasks.limit};

use crate::OutOfMemory;
use crate::status::Status;
use command_words::WordCode;
use std::alloc::Global;
use text_lines::{push_number, push_word};

/// The greatest number of bytes that are read.
pub const LIMIT: usize = 1_048_576;

/// A status, and the text that is written with it.
#[derive(Drop)]
pub struct Answer {
    pub status: Status,
    pub text: Vec<u8>,
}

/// The line of a refusal at this place.
pub fn refusal_at(
    alloc: Global,
    status: Status,
    code: u64,
    place: &[u8],
) -> Result<Answer, OutOfMemory>
    ensures { IfOk result (λ a. Says status (refusal_line (record { status = status; code = code; place = place.now })) a.status a.text.items) }
{
    let mut text = Vec::new(alloc);
    push_word(&mut text, b"refused ")?;
    push_number(&mut text, u64::from(status.number()))?;
    push_word(&mut text, b" ")?;
    push_number(&mut text, code)?;
    push_word(&mut text, b" ")?;
    push_word(&mut text, place)?;
    push_word(&mut text, b"\n")?;
    Ok(Answer { status, text })
}

/// The line of a refusal at the place with this number.
pub fn refusal(alloc: Global, status: Status, code: u64, place: u64) -> Result<Answer, OutOfMemory>
    ensures { IfOk result (λ a. Says status (refusal_line (refused_at status code place)) a.status a.text.items) }
{
    let mut word = Vec::new(alloc);
    push_number(&mut word, place)?;
    refusal_at(alloc, status, code, &word)
}

/// The refusal of the word with this index.
pub fn refused_word(alloc: Global, code: WordCode, word: u32) -> Result<Answer, OutOfMemory>
    ensures { IfOk result (λ a. Says Status.BadWords (refusal_line (refused_word code word)) a.status a.text.items) }
{
    refusal(
        alloc,
        Status::BadWords,
        u64::from(code.number()),
        u64::from(word),
    )
}

/// The refusal of a text that is too long.
pub fn too_long(alloc: Global) -> Result<Answer, OutOfMemory>
    ensures { IfOk result (λ a. Says Status.TooLong (refusal_line (refused_at Status.TooLong 0 limit)) a.status a.text.items) }
{
    refusal(alloc, Status::TooLong, 0, LIMIT as u64)
}
