//! Numbers of any size, as the digits that spell them.

ghost use Rattle.std.specs.{Prelude.{◌≡◌, ◌≤◌, ◌<◌, ◌&&◌, ◌==◌, nat_le, Some, None, if◌then◌else◌, IfOk, IfSome, IsTrue}, List.list_all, Str.Parse.digits_value};
ghost use Rattle.text_lines.specs.Check.{need, Tells};
ghost use Rattle.report_form.specs.Fields.{any_number, is_digit, is_number, next_keyed, next_word};

use crate::fields::next_value;
use report_form::ReportCode;
use text_lines::{Tokens, read_number};

/// Whether the bytes spell a number, of any size: digits, of which the first is no 0 unless it is
/// the only one.
fn is_number(token: &[u8]) -> bool
    ensures { result ≡ is_number token.now }
{
    match token {
        [] => false,
        [b'0', _, ..] => false,
        _ => are_digits(token),
    }
}

fn are_digits(token: &[u8]) -> bool
    ensures { result ≡ list_all is_digit token.now }
{
    token.iter().all(|byte| byte.is_ascii_digit())
}

/// The token, where it spells a number.
fn digits(token: &[u8]) -> Result<&[u8], ReportCode>
    ensures read { Tells (λ digits. digits_value 10 digits.now) result (need (any_number token.now) ReportCode.BadLine) }
    ensures number { IfOk result (λ digits. IsTrue (is_number digits.now)) }
{
    if is_number(token) {
        Ok(token)
    } else {
        Err(ReportCode::BadLine)
    }
}

/// Takes a token that spells a number.
pub fn next_digits<'a>(tokens: &mut Tokens<'a>) -> Result<&'a [u8], ReportCode>
    ensures read { Tells (λ digits. (digits_value 10 digits.now, tokens.new.words)) result (next_word any_number tokens.old.words) }
    ensures number { IfOk result (λ digits. IsTrue (is_number digits.now)) }
{
    match tokens.next_word() {
        Some(token) => digits(token),
        None => Err(ReportCode::BadLine),
    }
}

/// Takes a token that is a key and a number.
pub fn keyed_digits<'a>(tokens: &mut Tokens<'a>, key: &[u8]) -> Result<&'a [u8], ReportCode>
    ensures read { Tells (λ digits. (digits_value 10 digits.now, tokens.new.words)) result (next_keyed key.now any_number tokens.old.words) }
    ensures number { IfOk result (λ digits. IsTrue (is_number digits.now)) }
{
    let value = next_value(tokens, key)?;
    digits(value)
}

/// The number that the digits spell, where it is in range.
pub fn number_in(digits: &[u8], least: u64, greatest: u64) -> Option<u64>
    requires number { IsTrue (is_number digits.now) }
    ensures spelled { result ≡ (if nat_le least (digits_value 10 digits.now) && nat_le (digits_value 10 digits.now) greatest then Some (digits_value 10 digits.now) else None) }
    ensures least { IfSome result (λ n. least ≤ n) }
    ensures greatest { IfSome result (λ n. n ≤ greatest) }
{
    match read_number(digits, greatest) {
        Some(number) => { if number >= least { Some(number) } else { None } }
        None => None,
    }
}

/// Whether the digits spell the number.
pub fn spells(digits: &[u8], number: u32) -> bool
    requires { IsTrue (is_number digits.now) }
    ensures { result ≡ (digits_value 10 digits.now == number) }
{
    number_in(digits, u64::from(number), u64::from(number)).is_some()
}
