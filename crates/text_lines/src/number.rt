//! Numbers in canonical decimal, and the words of a text that is written.

ghost use Rattle.std.specs.{Prelude.{◌≡◌, ◌≢◌, ℕ, ◌+◌, ◌*◌, ◌^◌, ◌<◌, ◌≤◌, ◌++◌, IfSome, IfNone, OnOk, OnErr, decimal}, Char.digit_value, Str.Parse.{AllDigits, digits_value}};
ghost use Rattle.text_lines.specs.Number.{number_up_to};

use crate::digits::push_number_reserved;
use std::alloc::AllocError;

/// How many digits a number has at most.
const MOST_DIGITS: usize = 20;

/// The number that the token spells in decimal, without sign or leading zero, if it is at most
/// `greatest`. `None` comes exactly where the token spells no such number.
#[tactic(auto, using(crate::proofs::Numbers::up_to_some, crate::proofs::Numbers::up_to_larger, crate::proofs::Numbers::up_to_absent, crate::proofs::Numbers::larger_not))]
pub fn read_number(token: &[u8], greatest: u64) -> Option<u64>
    ensures value { result ≡ number_up_to greatest token.now }
    ensures some { IfSome result (λ n. (token.now ≡ decimal n) × (n ≤ greatest)) }
    ensures none { IfNone result ((n : ℕ) → n ≤ greatest → token.now ≢ decimal n) }
{
    match number_of(token) {
        Some(number) if number <= greatest => Some(number),
        _ => None,
    }
}

#[tactic(auto, using(crate::proofs::Numbers::spells, crate::proofs::Numbers::empty_not, crate::proofs::Numbers::zero_not))]
fn number_of(token: &[u8]) -> Option<u64>
    ensures some { IfSome result (λ n. token.now ≡ decimal n) }
    ensures none { IfNone result ((n : ℕ) → n < 2 ^ 64 → token.now ≢ decimal n) }
{
    match token {
        [] | [b'0', _, ..] => None,
        _ => value_of(token),
    }
}

/// The value of the digits, if they are digits and it fits.
#[tactic(auto, using(crate::proofs::Numbers::next_not, std::proofs::lemmas::Int::Digits::digits_value_more, std::proofs::lemmas::Int::Digits::digits_more))]
fn value_of(digits: &[u8]) -> Option<u64>
    ensures some { IfSome result (λ n. AllDigits 10 digits.now × (n ≡ digits_value 10 digits.now)) }
    ensures none { IfNone result ((n : ℕ) → n < 2 ^ 64 → digits.now ≢ decimal n) }
{
    let mut value: u64 = 0;
    for byte in digits {
        value = with_digit(value, *byte)?;
    }
    Some(value)
}

/// The number with one more digit at its end, if that is a digit and the number fits.
fn with_digit(value: u64, byte: u8) -> Option<u64>
    ensures some { IfSome result (λ n. (digit_value byte < 10) × (n ≡ value * 10 + digit_value byte)) }
    ensures none { IfNone result (digit_value byte < 10 → 2 ^ 64 ≤ value * 10 + digit_value byte) }
{
    if !byte.is_ascii_digit() {
        return None;
    }
    value.checked_mul(10)?.checked_add(u64::from(byte - b'0'))
}

/// Appends the number in decimal. An `Err` comes only where memory runs out, and leaves the bytes
/// as they were.
pub fn push_number(out: &mut Vec<u8>, value: u64) -> Result<(), AllocError>
    ensures appended { OnOk result (out.new.items ≡ out.old.items ++ decimal value) }
    ensures unchanged { OnErr result (out.new.items ≡ out.old.items) }
{
    out.reserve(MOST_DIGITS)?;
    push_number_reserved(out, value);
    Ok(())
}

/// Appends the bytes of the word. An `Err` comes only where memory runs out, and leaves the bytes
/// as they were.
pub fn push_word(out: &mut Vec<u8>, word: &[u8]) -> Result<(), AllocError>
    ensures appended { OnOk result (out.new.items ≡ out.old.items ++ word.now) }
    ensures unchanged { OnErr result (out.new.items ≡ out.old.items) }
{
    out.extend_from_slice(word)
}
