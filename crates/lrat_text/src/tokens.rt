//! The tokens of a line, one after the other.

ghost use Rattle.std.specs.Prelude.{◌≡◌, ℕ, ◌+◌, ◌^◌, ◌<◌, ◌≤◌, ◌==◌, ◌||◌, true, false, length, drop, slice_index, List, [], ◌∷◌, IfNone, IfSome};
ghost use Rattle.lrat_text.specs.Tokens.{Token as TokenValue, tokens_from};

use std::marker::Model;

/// A piece between spaces and tabs, and its place: the offset of its first byte from the first byte
/// that was fed.
#[derive(Drop)]
pub struct Token<'a> {
    pub place: u64,
    pub bytes: &'a [u8],
}

impl<'a> Model for Token<'a> {
    ghost use Rattle.lrat_text.specs.Tokens.{Token as TokenValue};

    ghost Value = { TokenValue };

    ghost view = { λ t. record { place = t.place; bytes = t.bytes.now } };
}

/// The tokens of a line that are still to be read: the bytes that they stand in, and the place of
/// the first of these.
#[derive(Drop)]
pub struct Tokens<'a> {
    place: u64,
    bytes: &'a [u8],
}

impl<'a> Model for Tokens<'a> {
    ghost use Rattle.std.specs.Prelude.{◌+◌, ◌^◌, ◌<◌, List, length};
    ghost use Rattle.lrat_text.specs.Tokens.{Token as TokenValue, tokens_from};

    ghost Value = { List TokenValue };

    ghost view = { λ t. tokens_from t.place t.bytes.now };

    ghost invariant = { λ t. t.place + length t.bytes.now < 2 ^ 64 };
}

impl<'a> Tokens<'a> {
    /// The tokens in these bytes, the first of which has this place.
    pub fn new(place: u64, bytes: &'a [u8]) -> Tokens<'a>
        requires { place + length bytes.now < 2 ^ 64 }
        ensures { result ≡ tokens_from place bytes.now }
    {
        Tokens { place, bytes }
    }

    /// The next token, which stays to be read. `None` comes exactly where there is none.
    pub fn peek(&self) -> Option<Token<'a>>
        ensures none { IfNone result (self.now ≡ []) }
        ensures some { IfSome result (λ token. (rest : List TokenValue) × (self.now ≡ token ∷ rest)) }
    {
        Tokens {
            place: self.place,
            bytes: self.bytes,
        }
        .next()
    }

    /// Takes the next token. `None` comes exactly where there is none.
    pub fn next(&mut self) -> Option<Token<'a>>
        ensures none { IfNone result (self.old ≡ []) }
        ensures unchanged { IfNone result (self.new ≡ self.old) }
        ensures some { IfSome result (λ token. self.old ≡ token ∷ self.new) }
    {
        let bytes = self.bytes;
        let start = leading_blanks(bytes);
        let end = end_of_token(bytes, start);
        if start == end {
            return None;
        }
        let place = self.place + start as u64;
        self.place += end as u64;
        self.bytes = &bytes[end..];
        Some(Token {
            place,
            bytes: &bytes[start..end],
        })
    }
}

/// How many spaces and tabs stand at the front.
fn leading_blanks(bytes: &[u8]) -> usize
    ensures within { result ≤ length bytes.now }
    ensures passed { (place : ℕ) → tokens_from place bytes.now ≡ tokens_from (place + result) (drop result bytes.now) }
    ensures stops { result < length bytes.now → (slice_index bytes.now result == 32 || slice_index bytes.now result == 9) ≡ false }
{
    for (i, byte) in bytes.iter().enumerate() {
        if !is_blank(*byte) {
            return i;
        }
    }
    bytes.len()
}

/// The first space or tab from this byte on, or else the length.
fn end_of_token(bytes: &[u8], start: usize) -> usize
    requires { start ≤ length bytes.now }
    ensures after { start ≤ result }
    ensures within { result ≤ length bytes.now }
    ensures apart { (k : ℕ) → start ≤ k → k < result → (slice_index bytes.now k == 32 || slice_index bytes.now k == 9) ≡ false }
    ensures stops { result < length bytes.now → (slice_index bytes.now result == 32 || slice_index bytes.now result == 9) ≡ true }
{
    for i in start..bytes.len() {
        if is_blank(bytes[i]) {
            return i;
        }
    }
    bytes.len()
}

fn is_blank(byte: u8) -> bool
    ensures { result ≡ (byte == 32 || byte == 9) }
{
    byte == b' ' || byte == b'\t'
}
