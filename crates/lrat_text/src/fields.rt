//! Lists of fields, each closed by a zero.

ghost use Rattle.std.specs.Prelude.{◌≡◌, Result};
ghost use Rattle.text_lines.specs.Check.{Gives};
ghost use Rattle.lrat_text.specs.{Tokens.{Token as TokenValue, id_of, literal_of, hint_of}, Reading.{up_to_zero, no_more}, declared.fault.LratTextFault.LratTextFault};

use crate::fault::LratTextFault;
use crate::numbers::{hint_of, id_of, literal_of};
use crate::tokens::{Token, Tokens};
use cnf_formula::Lit;
use std::alloc::Global;
use text_lines::Stop;

/// What the tokens of a list are read as.
pub trait Field: Sized + Drop {
    ghost reads: { TokenValue → Result Self LratTextFault };

    fn read(token: &Token<'_>) -> Result<Self, LratTextFault>
        ensures { result ≡ reads token.now };
}

impl Field for Lit {
    ghost reads = { literal_of };

    fn read(token: &Token<'_>) -> Result<Lit, LratTextFault> {
        literal_of(token)
    }
}

impl Field for i64 {
    ghost reads = { hint_of };

    fn read(token: &Token<'_>) -> Result<i64, LratTextFault> {
        hint_of(token)
    }
}

impl Field for u64 {
    ghost reads = { id_of };

    fn read(token: &Token<'_>) -> Result<u64, LratTextFault> {
        id_of(token)
    }
}

/// Takes the fields up to a zero, and the zero. `lack` is the fault where no zero comes.
pub fn up_to_zero<F: Field>(
    alloc: Global,
    tokens: &mut Tokens<'_>,
    lack: LratTextFault,
) -> Result<Vec<F>, Stop<LratTextFault>>
    ensures { Gives (λ fields. (fields.items, tokens.new)) result (up_to_zero F.reads lack tokens.old) }
{
    let mut fields = Vec::new(alloc);
    while let Some(token) = tokens.next() {
        if token.bytes == b"0".as_slice() {
            return Ok(fields);
        }
        match F::read(&token) {
            Ok(field) => fields.push(field)?,
            Err(fault) => return Err(Stop::Refused(fault)),
        }
    }
    Err(Stop::Refused(lack))
}

/// A token that is left can't stand in its place.
pub fn no_more(tokens: &Tokens<'_>) -> Result<(), Stop<LratTextFault>>
    ensures { Gives (λ u. u) result (no_more tokens.now) }
{
    match tokens.peek() {
        None => Ok(()),
        Some(token) => Err(Stop::Refused(LratTextFault::BadToken { place: token.place })),
    }
}
