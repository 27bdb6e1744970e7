//! Tokens that single values of JSON stand for.

ghost use Rattle.std.specs.{Prelude.{◌≡◌, ◌∷◌, ◌++◌, bytes_eq, map, option_map}, List.list_any};
ghost use Rattle.serde_json.specs.View.{view};
ghost use Rattle.json_values.specs.{Appends.Appends, Pieces.{token_in, tokens_in, row_in}};

use crate::shape::{count_in, items_in, name_in};
use crate::tokens::Tokens;
use serde_json::Value;
use text_lines::{Stop, push_number, push_word};

/// A token that a value stands for.
#[derive(Clone, Copy)]
pub enum Token<'a> {
    /// A whole number from 0 on.
    Count,
    /// The name of a node.
    Name,
    /// One of these words.
    OneOf(&'a [&'a str]),
}

/// Whether the text is one of these words.
fn is_among(words: &[&str], text: &str) -> bool
    ensures { result ≡ list_any (λ word. bytes_eq text.now word.now) words.now }
{
    words.iter().any(|word| text == *word)
}

/// Appends the text that the value is, where it is one of these words.
fn push_one_of(out: &mut Vec<u8>, words: &[&str], value: &Value) -> Result<(), Stop<()>>
    ensures { Appends result out.old.items out.new.items (token_in (Token.OneOf words.entry) (view value.now)) }
{
    let Some(text) = value.as_str() else {
        return Err(Stop::Refused(()));
    };
    if !is_among(words, text) {
        return Err(Stop::Refused(()));
    }
    push_word(out, text.as_bytes())?;
    Ok(())
}

impl<'a> Token<'a> {
    /// Appends the token without a space before it.
    fn push(&self, out: &mut Vec<u8>, value: &Value) -> Result<(), Stop<()>>
        ensures { Appends result out.old.items out.new.items (token_in self.now (view value.now)) }
    {
        match self {
            Token::Count => match count_in(value) {
                Some(number) => push_number(out, number)?,
                None => return Err(Stop::Refused(())),
            },
            Token::Name => match name_in(value) {
                Some(name) => push_word(out, name.as_bytes())?,
                None => return Err(Stop::Refused(())),
            },
            Token::OneOf(words) => push_one_of(out, words, value)?,
        }
        Ok(())
    }
}

impl<'a> Tokens for Token<'a> {
    ghost tokens = { tokens_in };

    fn push_tokens(&self, out: &mut Vec<u8>, value: &Value) -> Result<(), Stop<()>> {
        push_word(out, b" ")?;
        self.push(out, value)
    }
}

/// A token with this key and the sign `=` before it.
#[derive(Drop)]
pub struct Keyed<'a>(pub &'a str, pub Token<'a>);

impl<'a> Tokens for Keyed<'a> {
    ghost tokens = { λ s d. option_map (map (λ w. s.0.now ++ 61 ∷ w)) (tokens_in s.1 d) };

    fn push_tokens(&self, out: &mut Vec<u8>, value: &Value) -> Result<(), Stop<()>> {
        push_word(out, b" ")?;
        push_word(out, self.0.as_bytes())?;
        push_word(out, b"=")?;
        self.1.push(out, value)
    }
}

/// A list of one value for each of these tokens.
#[derive(Drop)]
pub struct Row<'a>(pub &'a [Token<'a>]);

impl<'a> Tokens for Row<'a> {
    ghost tokens = { λ s. row_in s.0.now };

    fn push_tokens(&self, out: &mut Vec<u8>, value: &Value) -> Result<(), Stop<()>> {
        let Some(items) = items_in(value) else {
            return Err(Stop::Refused(()));
        };
        let mut left = self.0;
        for item in items {
            let [token, rest @ ..] = left else {
                return Err(Stop::Refused(()));
            };
            token.push_tokens(out, item)?;
            left = rest;
        }
        if left.is_empty() {
            Ok(())
        } else {
            Err(Stop::Refused(()))
        }
    }
}
