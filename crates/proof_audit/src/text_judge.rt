//! Whether a file is a text.

ghost use Rattle.std.specs.Prelude.{◌≡◌};

use crate::judge::Judge;
use outer_ports::OutOfMemory;

/// Compares pieces with a text.
#[derive(Drop)]
pub(crate) struct TextJudge {
    text: Vec<u8>,
    done: usize,
}

impl TextJudge {
    ghost use Rattle.std.specs.Prelude.{ℕ, List, bytes_eq};

    pub(crate) fn new(text: Vec<u8>) -> TextJudge
        ensures passes { (bytes : List ℕ) → ⟦<TextJudge as Judge>⟧.passes result bytes ≡ bytes_eq bytes text.items }
        ensures taken { ⟦<TextJudge as Judge>⟧.taken result ≡ 0 }
        ensures reading { ⟦<TextJudge as Judge>⟧.is_reading result }
    {
        TextJudge { text, done: 0 }
    }
}

impl Judge for TextJudge {
    ghost use Rattle.std.specs.Prelude.{◌≤◌, drop, bytes_eq, vec_len};

    ghost passes = { λ judge bytes. bytes_eq bytes (drop judge.done judge.text.items) };

    ghost taken = { λ judge. judge.done };

    ghost is_reading = { λ judge. judge.done ≤ vec_len judge.text };

    fn take(&mut self, piece: &[u8]) -> Result<bool, OutOfMemory> {
        if !self.text[self.done..].starts_with(piece) {
            return Ok(false);
        }
        self.done += piece.len();
        Ok(true)
    }

    #[tactic(auto, using(crate::proofs::Compared::vec_at_end))]
    fn end(&mut self) -> Result<bool, OutOfMemory> {
        Ok(self.done == self.text.len())
    }
}
