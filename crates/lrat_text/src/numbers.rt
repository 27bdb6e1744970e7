//! What a token says where a number, a literal or a hint stands.

ghost use Rattle.std.specs.{Prelude.{◌≡◌, ◌<◌, ◌≤◌, ◌&&◌, nat_le, IfOk}, List.list_all};
ghost use Rattle.lrat_text.specs.Tokens.{is_number, number_from, id_of, literal_of, hint_of, has_minus, after_minus};

use crate::fault::LratTextFault;
use crate::tokens::Token;
use cnf_formula::Lit;
use text_lines::read_number;

const GREATEST_ID: u64 = 4294967295;

const GREATEST_VAR: u64 = 2147483647;

/// The number of a clause, from 1 to 4,294,967,295.
pub fn id_of(token: &Token<'_>) -> Result<u64, LratTextFault>
    ensures { result ≡ id_of token.now }
{
    number_from(token.place, GREATEST_ID, token.bytes)
}

/// A literal: the number of its variable, from 1 to 2,147,483,647, behind a minus sign if it is
/// negated.
pub fn literal_of(token: &Token<'_>) -> Result<Lit, LratTextFault>
    ensures { result ≡ literal_of token.now }
{
    let (minus, digits) = signed(token);
    let var = number_from(token.place, GREATEST_VAR, digits)?;
    Ok(Lit::new(var as u32, !minus))
}

/// A hint: the number of a clause, behind a minus sign if it begins a group.
pub fn hint_of(token: &Token<'_>) -> Result<i64, LratTextFault>
    ensures { result ≡ hint_of token.now }
{
    let (minus, digits) = signed(token);
    let id = number_from(token.place, GREATEST_ID, digits)? as i64;
    Ok(if minus { -id } else { id })
}

/// Whether a minus sign stands at the front, and what stands behind it.
fn signed<'a>(token: &Token<'a>) -> (bool, &'a [u8])
    ensures minus { result.0 ≡ has_minus token.now }
    ensures digits { result.1.now ≡ after_minus token.now }
{
    match token.bytes {
        [b'-', digits @ ..] => (true, digits),
        digits => (false, digits),
    }
}

/// The number from 1 to a greatest one that the digits spell, which stand at this place.
#[tactic(auto, using(crate::proofs::Digits::number_found, crate::proofs::Digits::number_large, crate::proofs::Digits::number_some))]
fn number_from(place: u64, greatest: u64, digits: &[u8]) -> Result<u64, LratTextFault>
    ensures read { result ≡ number_from place greatest digits.now }
    ensures some { IfOk result (λ n. 0 < n) }
    ensures within { IfOk result (λ n. n ≤ greatest) }
{
    if !is_number(digits) {
        return Err(LratTextFault::BadToken { place });
    }
    match read_number(digits, greatest) {
        Some(number) => Ok(number),
        None => Err(LratTextFault::NumberRange { place }),
    }
}

/// Digits without a leading zero.
fn is_number(digits: &[u8]) -> bool
    ensures { result ≡ is_number digits.now }
{
    if digits.is_empty() || digits[0] == b'0' {
        return false;
    }
    are_digits(digits)
}

fn are_digits(bytes: &[u8]) -> bool
    ensures { result ≡ list_all (λ b. nat_le 48 b && nat_le b 57) bytes.now }
{
    bytes.iter().all(|byte| byte.is_ascii_digit())
}
