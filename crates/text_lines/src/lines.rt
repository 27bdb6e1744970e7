//! The lines of a text, one after the other.

ghost use Rattle.std.specs.Prelude.{◌≡◌, ◌+◌, ◌^◌, ◌<◌, ◌≤◌, [], ◌∷◌, length, drop, false, true, Some, IfSome, IfNone};
ghost use Rattle.text_lines.specs.{Text.{rows_of, start, behind, StartsLine}, Line.{IsIn, row_at, after}, Check.first, Repeated.row_begins};

use crate::line::Line;
use crate::scan::end_of;
use std::marker::Model;

/// The lines of a text that are still to be read.
#[derive(Drop)]
pub struct Lines<'a> {
    text: &'a [u8],
    at: usize,
    number: u32,
}

impl<'a> Model for Lines<'a> {
    ghost use Rattle.std.specs.Prelude.{◌≤◌, length, drop};
    ghost use Rattle.text_lines.specs.Text.{Reading, rows_of};

    ghost Value = { Reading };

    ghost view = { λ l. record { text = l.text.now; place = record { number = l.number; rows = rows_of (drop l.at l.text.now) } } };

    ghost invariant = { λ l. l.at ≤ length l.text.now };
}

impl<'a> Lines<'a> {
    /// All lines of the text, the first of which has number 1.
    pub fn new(text: &'a [u8]) -> Lines<'a>
        ensures text { result.text ≡ text.now }
        ensures place { result.place ≡ start text.now }
    {
        Lines {
            text,
            at: 0,
            number: 1,
        }
    }

    /// The text that the lines are of.
    pub fn text(&self) -> &'a [u8]
        ensures { result.now ≡ self.now.text }
    {
        self.text
    }

    /// The number of the next line: 1 more than the number of the lines that were taken.
    pub fn number(&self) -> u32
        ensures { result ≡ self.now.place.number }
    {
        self.number
    }

    /// The next line, which stays to be read. `None` comes exactly after the last byte. The place
    /// of the line, also of an empty one, is where it stands in the text.
    pub fn peek(&self) -> Option<Line>
        ensures none { IfNone result (self.now.place.rows ≡ []) }
        ensures span { IfSome result (IsIn self.now.text) }
        ensures starts { IfSome result (λ line. StartsLine self.now.text self.now.place.rows line.start) }
        ensures number { IfSome result (λ line. line.number ≡ self.now.place.number) }
        ensures some { IfSome result (λ line. first self.now.place.rows ≡ Some (row_at self.now.text line)) }
    {
        line_at(self.text, self.at, self.number)
    }

    /// Takes the next line. `None` comes exactly after the last byte, and then nothing changes. The
    /// place of the line, also of an empty one, is where it stands in the text. The number of the
    /// next line is to be below 2^32 - 1, so that the one after it has a number too.
    pub fn next(&mut self) -> Option<Line>
        requires { self.old.place.number + 1 < 2 ^ 32 }
        ensures text { self.new.text ≡ self.old.text }
        ensures none { IfNone result (self.old.place.rows ≡ []) }
        ensures unchanged { IfNone result (self.new ≡ self.old) }
        ensures span { IfSome result (IsIn self.old.text) }
        ensures starts { IfSome result (λ line. StartsLine self.old.text self.old.place.rows line.start) }
        ensures number { IfSome result (λ line. line.number ≡ self.old.place.number) }
        ensures some { IfSome result (λ line. first self.old.place.rows ≡ Some (row_at self.old.text line)) }
        ensures moves { IfSome result (λ _. self.new.place ≡ behind self.old.place) }
        ensures fewer { IfSome result (λ _. length self.new.place.rows + 1 ≡ length self.old.place.rows) }
    {
        let line = line_at(self.text, self.at, self.number)?;
        self.at = line_after(line);
        self.number += 1;
        Some(line)
    }

    /// Takes the next line, if there is one and it begins with the word; else nothing changes. The
    /// number of the next line is to be below 2^32 - 1.
    pub fn next_with(&mut self, word: &[u8]) -> Option<Line>
        requires { self.old.place.number + 1 < 2 ^ 32 }
        ensures text { self.new.text ≡ self.old.text }
        ensures other { IfNone result (row_begins word.now (first self.old.place.rows) ≡ false) }
        ensures unchanged { IfNone result (self.new ≡ self.old) }
        ensures span { IfSome result (IsIn self.old.text) }
        ensures number { IfSome result (λ line. line.number ≡ self.old.place.number) }
        ensures some { IfSome result (λ line. first self.old.place.rows ≡ Some (row_at self.old.text line)) }
        ensures begins { IfSome result (λ _. row_begins word.now (first self.old.place.rows) ≡ true) }
        ensures moves { IfSome result (λ _. self.new.place ≡ behind self.old.place) }
        ensures fewer { IfSome result (λ _. length self.new.place.rows + 1 ≡ length self.old.place.rows) }
    {
        let line = self.peek()?;
        if !self.text[line.start..line.end].starts_with(word) {
            return None;
        }
        self.next()
    }
}

fn line_after(line: Line) -> usize
    requires { line.end + 1 < 2 ^ 64 }
    ensures { result ≡ after line }
{
    if line.whole { line.end + 1 } else { line.end }
}

#[tactic(auto, using(crate::proofs::Rows::rows_step, crate::proofs::Rows::rows_end_at, crate::proofs::Rows::rows_left))]
fn line_at(text: &[u8], at: usize, number: u32) -> Option<Line>
    requires { at ≤ length text.now }
    ensures none { IfNone result (at ≡ length text.now) }
    ensures span { IfSome result (IsIn text.now) }
    ensures within { IfSome result (λ line. after line ≤ length text.now) }
    ensures number { IfSome result (λ line. line.number ≡ number) }
    ensures starts { IfSome result (λ line. StartsLine text.now (rows_of (drop at text.now)) line.start) }
    ensures some { IfSome result (λ line. rows_of (drop at text.now) ≡ row_at text.now line ∷ rows_of (drop (after line) text.now)) }
{
    if at == text.len() {
        return None;
    }
    let end = end_of(text, at, text.len(), b'\n');
    Some(Line {
        number,
        start: at,
        end,
        whole: end < text.len(),
    })
}
