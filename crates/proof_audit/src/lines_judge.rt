//! Whether a file says proof lines that pass a test.

ghost use Rattle.std.specs.Prelude.{◌≡◌, ◌≢◌, ℕ, ◌+◌, ◌<◌, [], true, false, List, length, Ok, IfOk};
ghost use Rattle.lrat_text.specs.{declared.fault.LratTextFault.LratTextFault, Reading.new_reader};
ghost use Rattle.proof_audit.specs.inner.Lines.{left_says, lines_pass, IsReading};

use crate::judge::Judge;
use crate::line_test::LineTest;
use cnf_formula::OutOfMemory;
use lrat_text::{LratReader, LratTextFault};
use std::alloc::{AllocError, Global};

/// Reads pieces as proof lines, and hands each line to a test at once.
#[derive(Drop)]
pub(crate) struct LinesJudge<T: LineTest> {
    reader: LratReader,
    test: T,
}

impl<T: LineTest + Drop> LinesJudge<T> {
    /// A judge that took nothing. An `Err` comes only where memory runs out.
    pub(crate) fn new(alloc: Global, test: T) -> Result<LinesJudge<T>, OutOfMemory>
        ensures passes { IfOk result (λ judge. (bytes : List ℕ) → ⟦<LinesJudge<T> as Judge>⟧.passes judge bytes ≡ lines_pass (T.passes test) (left_says new_reader bytes)) }
        ensures taken { IfOk result (λ judge. ⟦<LinesJudge<T> as Judge>⟧.taken judge ≡ 0) }
        ensures reading { IfOk result (λ judge. ⟦<LinesJudge<T> as Judge>⟧.is_reading judge) }
    {
        Ok(LinesJudge {
            reader: LratReader::new(alloc)?,
            test,
        })
    }
}

impl<T: LineTest> LinesJudge<T> {
    ghost use Rattle.std.specs.Prelude.{None};

    /// Hands the lines that the reader has to the test. `false` says that one can't be read, or
    /// that no lines that begin so pass.
    fn take_lines(&mut self) -> Result<bool, OutOfMemory>
        requires calm { self.old.reader.fault ≡ None }
        ensures calm { result ≡ Ok true → self.new.reader.fault ≡ None }
        ensures finished { self.new.reader.finished ≡ self.old.reader.finished }
        ensures bytes { self.new.reader.place + length self.new.reader.rest ≡ self.old.reader.place + length self.old.reader.rest }
        ensures more { result ≡ Ok true → (more : List ℕ) → (self.old.reader.finished ≡ true → more ≡ []) → lines_pass (T.passes self.old.test) (left_says self.old.reader more) ≡ lines_pass (T.passes self.new.test) (left_says self.new.reader more) }
        ensures over { result ≡ Ok false → (more : List ℕ) → (self.old.reader.finished ≡ true → more ≡ []) → lines_pass (T.passes self.old.test) (left_says self.old.reader more) ≡ false }
        ensures left { result ≡ Ok true → self.old.reader.finished ≡ true → self.new.reader.rest ≡ [] }
    {
        loop {
            match self.reader.next_line() {
                Ok(Some(line)) => {
                    if !self.test.take(line)? {
                        return Ok(false);
                    }
                }
                Ok(None) => return Ok(true),
                Err(fault) => return refused_for(fault),
            }
        }
    }
}

/// A text with a fault is refused, unless memory ran out.
fn refused_for(fault: LratTextFault) -> Result<bool, OutOfMemory>
    ensures never { result ≢ Ok true }
    ensures refused { result ≡ Ok false → fault ≢ LratTextFault.OutOfMemory }
{
    if fault == LratTextFault::OutOfMemory {
        return Err(AllocError);
    }
    Ok(false)
}

impl<T: LineTest> Judge for LinesJudge<T> {
    ghost passes = { λ judge bytes. lines_pass (T.passes judge.test) (left_says judge.reader bytes) };

    ghost taken = { λ judge. judge.reader.place + length judge.reader.rest };

    ghost is_reading = { λ judge. IsReading judge.reader };

    fn take(&mut self, piece: &[u8]) -> Result<bool, OutOfMemory> {
        self.reader.feed(piece)?;
        self.take_lines()
    }

    fn end(&mut self) -> Result<bool, OutOfMemory> {
        self.reader.finish();
        if !self.take_lines()? {
            return Ok(false);
        }
        Ok(self.test.passed())
    }
}
