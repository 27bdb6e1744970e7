//! Tokens and lines that values of JSON stand for, by their form. A refusal comes exactly where a
//! value does not have the form, unless memory runs out; after either, nothing is said of what was
//! appended.

ghost use Rattle.std.specs.Prelude.{if◌then◌else◌, [], ◌∷◌, ℕ, List, Option, Some, decimal, option_map};
ghost use Rattle.text_lines.specs.Text.{fields, text_of};
ghost use Rattle.serde_json.specs.{Data.Data, View.view};
ghost use Rattle.json_values.specs.{Shape.{◌⊕◌, one, headed, field}, Appends.Appends, Pieces.{each_in, nothing_in, may_in, has_due_keys, fields_in}};

use crate::shape::{has_due_keys, items_in};
use serde_json::Value;
use text_lines::{Stop, push_number_field, push_word};

/// A form whose values stand for tokens.
pub trait Tokens {
    /// The tokens that a value stands for; `None` where it does not have the form.
    ghost tokens: { Self → Data → Option (List (List ℕ)) };

    /// Appends the tokens, each with a space before it.
    fn push_tokens(&self, out: &mut Vec<u8>, value: &Value) -> Result<(), Stop<()>>
        ensures { Appends result out.old.items out.new.items (option_map fields (tokens self.now (view value.now))) };
}

/// A form whose values stand for lines.
pub trait Lines {
    /// The lines that a value stands for, each as its tokens; `None` where it does not have the form.
    ghost lines: { Self → Data → Option (List (List (List ℕ))) };

    /// Appends the lines.
    fn push_lines(&self, out: &mut Vec<u8>, value: &Value) -> Result<(), Stop<()>>
        ensures { Appends result out.old.items out.new.items (option_map text_of (lines self.now (view value.now))) };
}

/// No token and no line, whatever the value.
#[derive(Drop)]
pub struct Nothing;

impl Tokens for Nothing {
    ghost tokens = { λ _ _. Some [] };

    fn push_tokens(&self, _out: &mut Vec<u8>, _value: &Value) -> Result<(), Stop<()>> {
        Ok(())
    }
}

impl Lines for Nothing {
    ghost lines = { λ _ _. Some [] };

    fn push_lines(&self, _out: &mut Vec<u8>, _value: &Value) -> Result<(), Stop<()>> {
        Ok(())
    }
}

/// A list of no items.
#[derive(Drop)]
pub struct Empty;

impl Lines for Empty {
    ghost lines = { λ _. nothing_in };

    #[tactic(auto, using(crate::proofs::Values::none_there, crate::proofs::Values::some_there))]
    fn push_lines(&self, _out: &mut Vec<u8>, value: &Value) -> Result<(), Stop<()>> {
        match items_in(value) {
            Some(items) => if items.is_empty() {
                Ok(())
            } else {
                Err(Stop::Refused(()))
            },
            None => Err(Stop::Refused(())),
        }
    }
}

/// This number, and the tokens behind it.
#[derive(Drop)]
pub struct Behind<P>(pub u64, pub P);

impl<P: Tokens> Tokens for Behind<P> {
    ghost tokens = { λ s d. headed (decimal s.0) (P.tokens s.1 d) };

    fn push_tokens(&self, out: &mut Vec<u8>, value: &Value) -> Result<(), Stop<()>> {
        push_number_field(out, self.0)?;
        self.1.push_tokens(out, value)
    }
}

/// A line of this word and of the tokens behind it.
#[derive(Drop)]
pub struct Lined<'a, P>(pub &'a str, pub P);

impl<'a, P: Tokens> Lines for Lined<'a, P> {
    ghost lines = { λ s d. one (headed s.0.now (P.tokens s.1 d)) };

    fn push_lines(&self, out: &mut Vec<u8>, value: &Value) -> Result<(), Stop<()>> {
        push_word(out, self.0.as_bytes())?;
        self.1.push_tokens(out, value)?;
        push_word(out, b"\n")?;
        Ok(())
    }
}

/// A line of this word alone, and the lines behind it.
#[derive(Drop)]
pub struct Headed<'a, P>(pub &'a str, pub P);

impl<'a, P: Lines> Lines for Headed<'a, P> {
    ghost lines = { λ s d. headed (s.0.now ∷ []) (P.lines s.1 d) };

    fn push_lines(&self, out: &mut Vec<u8>, value: &Value) -> Result<(), Stop<()>> {
        push_word(out, self.0.as_bytes())?;
        push_word(out, b"\n")?;
        self.1.push_lines(out, value)
    }
}

// ---- both, one after the other

impl<A: Tokens, B: Tokens> Tokens for (A, B) {
    ghost tokens = { λ s d. A.tokens s.0 d ⊕ B.tokens s.1 d };

    fn push_tokens(&self, out: &mut Vec<u8>, value: &Value) -> Result<(), Stop<()>> {
        self.0.push_tokens(out, value)?;
        self.1.push_tokens(out, value)
    }
}

impl<A: Lines, B: Lines> Lines for (A, B) {
    ghost lines = { λ s d. A.lines s.0 d ⊕ B.lines s.1 d };

    fn push_lines(&self, out: &mut Vec<u8>, value: &Value) -> Result<(), Stop<()>> {
        self.0.push_lines(out, value)?;
        self.1.push_lines(out, value)
    }
}

/// The first, where the test holds, and else the other.
#[derive(Drop)]
pub struct Either<A, B>(pub bool, pub A, pub B);

impl<A: Tokens, B: Tokens> Tokens for Either<A, B> {
    ghost tokens = { λ s d. if s.0 then A.tokens s.1 d else B.tokens s.2 d };

    fn push_tokens(&self, out: &mut Vec<u8>, value: &Value) -> Result<(), Stop<()>> {
        if self.0 {
            self.1.push_tokens(out, value)
        } else {
            self.2.push_tokens(out, value)
        }
    }
}

impl<A: Lines, B: Lines> Lines for Either<A, B> {
    ghost lines = { λ s d. if s.0 then A.lines s.1 d else B.lines s.2 d };

    fn push_lines(&self, out: &mut Vec<u8>, value: &Value) -> Result<(), Stop<()>> {
        if self.0 {
            self.1.push_lines(out, value)
        } else {
            self.2.push_lines(out, value)
        }
    }
}

/// Each item of a list.
#[derive(Drop)]
pub struct Each<P>(pub P);

impl<P: Tokens> Tokens for Each<P> {
    ghost tokens = { λ s. each_in (P.tokens s.0) };

    fn push_tokens(&self, out: &mut Vec<u8>, value: &Value) -> Result<(), Stop<()>> {
        let Some(items) = items_in(value) else {
            return Err(Stop::Refused(()));
        };
        for item in items {
            self.0.push_tokens(out, item)?;
        }
        Ok(())
    }
}

impl<P: Lines> Lines for Each<P> {
    ghost lines = { λ s. each_in (P.lines s.0) };

    fn push_lines(&self, out: &mut Vec<u8>, value: &Value) -> Result<(), Stop<()>> {
        let Some(items) = items_in(value) else {
            return Err(Stop::Refused(()));
        };
        for item in items {
            self.0.push_lines(out, item)?;
        }
        Ok(())
    }
}

// ---- objects

/// What stands at a key.
#[derive(Drop)]
pub struct At<'a, P>(pub &'a str, pub P);

impl<'a, P: Tokens> Tokens for At<'a, P> {
    ghost tokens = { λ s. field s.0.now (P.tokens s.1) };

    fn push_tokens(&self, out: &mut Vec<u8>, value: &Value) -> Result<(), Stop<()>> {
        match value.get(self.0) {
            Some(member) => self.1.push_tokens(out, member),
            None => Err(Stop::Refused(())),
        }
    }
}

impl<'a, P: Lines> Lines for At<'a, P> {
    ghost lines = { λ s. field s.0.now (P.lines s.1) };

    fn push_lines(&self, out: &mut Vec<u8>, value: &Value) -> Result<(), Stop<()>> {
        match value.get(self.0) {
            Some(member) => self.1.push_lines(out, member),
            None => Err(Stop::Refused(())),
        }
    }
}

/// What stands at a key that may be left out.
#[derive(Drop)]
pub struct May<'a, P>(pub &'a str, pub P);

impl<'a, P: Tokens> Tokens for May<'a, P> {
    ghost tokens = { λ s. may_in s.0.now (P.tokens s.1) };

    fn push_tokens(&self, out: &mut Vec<u8>, value: &Value) -> Result<(), Stop<()>> {
        match value.get(self.0) {
            Some(member) => self.1.push_tokens(out, member),
            None => Ok(()),
        }
    }
}

/// An object with exactly those of these keys that are due; they are given in ascending order.
#[derive(Drop)]
pub struct Fields<'a, P>(pub &'a [(&'a str, bool)], pub P);

impl<'a, P: Lines> Lines for Fields<'a, P> {
    ghost lines = { λ s. fields_in s.0.now (P.lines s.1) };

    fn push_lines(&self, out: &mut Vec<u8>, value: &Value) -> Result<(), Stop<()>> {
        if !has_due_keys(value, self.0) {
            return Err(Stop::Refused(()));
        }
        self.1.push_lines(out, value)
    }
}
