//! What one line of a text says.

ghost use Rattle.std.specs.{Prelude.{◌≡◌, ◌+◌, ◌^◌, ◌<◌, ◌≤◌, length}, Option.option_transpose};
ghost use Rattle.text_lines.specs.Check.{Gives};
ghost use Rattle.lrat_text.specs.{Tokens.content, Reading.{addition_of, deletion_of, behind_id, line_of, row_says}};

use crate::fault::LratTextFault;
use crate::fields::{no_more, up_to_zero};
use crate::numbers::id_of;
use crate::tokens::Tokens;
use cnf_formula::{Deletion, LratLine, ProofLine};
use std::alloc::Global;
use text_lines::Stop;

/// What a line says whose first byte has this place, and which a line feed ends where it is whole.
/// `None` comes where it says nothing.
pub fn row_says(
    alloc: Global,
    place: u64,
    bytes: &[u8],
    whole: bool,
) -> Result<Option<LratLine>, Stop<LratTextFault>>
    requires { place + length bytes.now < 2 ^ 64 }
    ensures { Gives (λ line. line) result (option_transpose (row_says place (record { bytes = bytes.now; whole = whole }))) }
{
    let lack = if whole {
        LratTextFault::BadToken {
            place: place + bytes.len() as u64,
        }
    } else {
        LratTextFault::Truncated
    };
    line_of(alloc, Tokens::new(place, content(bytes, whole)), lack)
}

/// A line without the byte 13 before its line feed.
fn content(bytes: &[u8], whole: bool) -> &[u8]
    ensures content { result.now ≡ content (record { bytes = bytes.now; whole = whole }) }
    ensures within { length result.now ≤ length bytes.now }
{
    match bytes {
        [front @ .., b'\r'] if whole => front,
        _ => bytes,
    }
}

/// The line of these tokens. `lack` is the fault where they end before a closing zero.
fn line_of(
    alloc: Global,
    mut tokens: Tokens<'_>,
    lack: LratTextFault,
) -> Result<Option<LratLine>, Stop<LratTextFault>>
    ensures { Gives (λ line. line) result (option_transpose (line_of lack tokens.entry)) }
{
    match tokens.next() {
        None => Ok(None),
        Some(token) if token.bytes.first() == Some(&b'c') => Ok(None),
        Some(token) => match id_of(&token) {
            Ok(id) => Ok(Some(behind_id(alloc, id, tokens, lack)?)),
            Err(fault) => Err(Stop::Refused(fault)),
        },
    }
}

/// The line of this number and of the tokens behind it: a deletion where the first of these is `d`.
fn behind_id(
    alloc: Global,
    id: u64,
    mut tokens: Tokens<'_>,
    lack: LratTextFault,
) -> Result<LratLine, Stop<LratTextFault>>
    ensures { Gives (λ line. line) result (behind_id lack id tokens.entry) }
{
    match tokens.peek() {
        None => Err(Stop::Refused(lack)),
        Some(token) if token.bytes == b"d".as_slice() => {
            tokens.next();
            deletion_of(alloc, id, tokens, lack)
        }
        Some(_) => addition_of(alloc, id, tokens, lack),
    }
}

fn addition_of(
    alloc: Global,
    id: u64,
    mut tokens: Tokens<'_>,
    lack: LratTextFault,
) -> Result<LratLine, Stop<LratTextFault>>
    ensures { Gives (λ line. line) result (addition_of lack id tokens.entry) }
{
    let lits = up_to_zero(alloc, &mut tokens, lack)?;
    let hints = up_to_zero(alloc, &mut tokens, lack)?;
    no_more(&tokens)?;
    Ok(LratLine::Addition(ProofLine { id, lits, hints }))
}

fn deletion_of(
    alloc: Global,
    id: u64,
    mut tokens: Tokens<'_>,
    lack: LratTextFault,
) -> Result<LratLine, Stop<LratTextFault>>
    ensures { Gives (λ line. line) result (deletion_of lack id tokens.entry) }
{
    let ids = up_to_zero(alloc, &mut tokens, lack)?;
    no_more(&tokens)?;
    Ok(LratLine::Deletion(Deletion { id, ids }))
}
