//! The tokens of a line, one after the other.

ghost use Rattle.std.specs.Prelude.{◌≡◌, ◌+◌, ◌<◌, ◌≤◌, [], ◌∷◌, length, slice_range, IfSome, IfNone};
ghost use Rattle.text_lines.specs.{Text.{words_of, StartsToken}, Line.{IsIn, row_at}};

use crate::line::Line;
use crate::scan::end_of;
use std::marker::Model;

/// A piece between single spaces: its bytes stand in the text from `start` on and before `end`.
#[derive(Clone, Copy, Debug)]
pub struct Token {
    pub start: usize,
    pub end: usize,
}

/// The tokens of a line that are still to be read.
#[derive(Drop)]
pub struct Tokens<'a> {
    text: &'a [u8],
    at: usize,
    end: usize,
    done: bool,
}

impl<'a> Model for Tokens<'a> {
    ghost use Rattle.std.specs.Prelude.{◌≤◌, length, [], slice_range, if◌then◌else◌};
    ghost use Rattle.text_lines.specs.Text.{Words, words_of};

    ghost Value = { Words };

    ghost view = { λ t. record { text = t.text.now; end = t.end; words = if t.done then [] else words_of (slice_range t.text.now t.at t.end) } };

    ghost invariant = { λ t. (t.at ≤ t.end) × (t.end ≤ length t.text.now) };
}

/// The tokens of a line: the pieces between its single spaces, so that two spaces in a row have an
/// empty token between them.
pub fn tokens_of(text: &[u8], line: Line) -> Tokens<'_>
    requires { IsIn text.now line }
    ensures text { result.text ≡ text.now }
    ensures end { result.end ≡ line.end }
    ensures words { result.words ≡ words_of (row_at text.now line).bytes }
{
    Tokens {
        text,
        at: line.start,
        end: line.end,
        done: false,
    }
}

impl<'a> Tokens<'a> {
    /// Takes the next token. `None` comes exactly after the last one, and then nothing changes. The
    /// place of the token, also of an empty one, is where it stands in the text.
    pub fn next(&mut self) -> Option<Token>
        ensures text { self.new.text ≡ self.old.text }
        ensures end { self.new.end ≡ self.old.end }
        ensures none { IfNone result (self.old.words ≡ []) }
        ensures unchanged { IfNone result (self.new ≡ self.old) }
        ensures ordered { IfSome result (λ token. token.start ≤ token.end) }
        ensures span { IfSome result (λ token. token.end ≤ length self.old.text) }
        ensures starts { IfSome result (λ token. StartsToken self.old.end self.old.words token.start) }
        ensures some { IfSome result (λ token. self.old.words ≡ slice_range self.old.text token.start token.end ∷ self.new.words) }
    {
        if self.done {
            return None;
        }
        let token = token_at(self.text, self.at, self.end);
        if token.end < self.end {
            self.at = token.end + 1;
        } else {
            self.done = true;
        }
        Some(token)
    }

    /// Takes the next token, and gives its bytes. `None` comes exactly after the last one, and then
    /// nothing changes.
    pub fn next_word(&mut self) -> Option<&'a [u8]>
        ensures text { self.new.text ≡ self.old.text }
        ensures end { self.new.end ≡ self.old.end }
        ensures none { IfNone result (self.old.words ≡ []) }
        ensures unchanged { IfNone result (self.new ≡ self.old) }
        ensures some { IfSome result (λ word. self.old.words ≡ word.now ∷ self.new.words) }
    {
        let token = self.next()?;
        let text = self.text;
        Some(&text[token.start..token.end])
    }
}

#[tactic(auto, using(crate::proofs::Rows::words_step, crate::proofs::Rows::words_end_at, crate::proofs::Rows::words_left))]
fn token_at(text: &[u8], at: usize, end: usize) -> Token
    requires ordered { at ≤ end }
    requires within { end ≤ length text.now }
    ensures start { result.start ≡ at }
    ensures starts { StartsToken end (words_of (slice_range text.now at end)) result.start }
    ensures after { at ≤ result.end }
    ensures before { result.end ≤ end }
    ensures more { result.end < end → words_of (slice_range text.now at end) ≡ slice_range text.now at result.end ∷ words_of (slice_range text.now (result.end + 1) end) }
    ensures last { end ≤ result.end → words_of (slice_range text.now at end) ≡ slice_range text.now at result.end ∷ [] }
{
    Token {
        start: at,
        end: end_of(text, at, end, b' '),
    }
}
