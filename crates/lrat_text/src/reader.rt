ghost use Rattle.std.specs.Prelude.{◌≡◌, ◌≢◌, ◌+◌, ◌^◌, ◌<◌, true, false, length, Err, IfOk, OnOk, OnErr, OnSome};
ghost use Rattle.lrat_text.specs.Reading.{ReaderValue, new_reader, fed, fault_of, said_to, after_next};

use crate::fault::LratTextFault;
use crate::holding::answer_of;
use cnf_formula::{LratLine, OutOfMemory};
use std::alloc::Global;
use std::marker::Model;

/// A reader of proof lines, which is fed a text in pieces, however they are cut. It is seen as its
/// rest, which are the bytes that belong to no line that was given or passed over, the place of the
/// first of them, whether the text is finished, and the fault that was answered. A text takes time
/// in proportion to its bytes.
#[derive(Drop)]
pub struct LratReader {
    bytes: Vec<u8>,
    /// Where the rest begins among the bytes.
    start: usize,
    /// How many bytes of the rest were searched for a line feed and have none.
    searched: usize,
    place: u64,
    finished: bool,
    fault: Option<LratTextFault>,
}

impl Model for LratReader {
    ghost use Rattle.std.specs.Prelude.{drop};
    ghost use Rattle.lrat_text.specs.{Reading.ReaderValue, inner.Holding.IsHolding};

    ghost Value = { ReaderValue };

    ghost view = { λ r. record { rest = drop r.start r.bytes.items; place = r.place; finished = r.finished; fault = r.fault } };

    ghost invariant = { λ r. IsHolding r.bytes.items r.start r.searched r.place };
}

impl LratReader {
    /// A reader that was fed nothing. An `Err` comes only where memory runs out.
    pub fn new(alloc: Global) -> Result<LratReader, OutOfMemory>
        ensures { IfOk result (λ reader. reader ≡ new_reader) }
    {
        Ok(LratReader {
            bytes: Vec::new(alloc),
            start: 0,
            searched: 0,
            place: 0,
            finished: false,
            fault: None,
        })
    }

    /// Appends a piece of the text, which is not finished and has fewer than 2^64 bytes in all. An
    /// `Err` comes only where memory runs out, and then the reader is as before.
    pub fn feed(&mut self, piece: &[u8]) -> Result<(), OutOfMemory>
        requires unfinished { self.old.finished ≡ false }
        requires room { self.old.place + length self.old.rest + length piece.now < 2 ^ 64 }
        ensures fed { OnOk result (self.new ≡ fed self.old piece.now) }
        ensures kept { OnErr result (self.new ≡ self.old) }
    {
        self.compact();
        self.bytes.extend_from_slice(piece)
    }

    /// Says that the text is at its end, so that its last line may lack its line feed.
    pub fn finish(&mut self)
        ensures { self.new ≡ record { rest = self.old.rest; place = self.old.place; finished = true; fault = self.old.fault } }
    {
        self.finished = true;
    }

    /// The next line. Lines that say nothing are passed over. `None` comes exactly where no line is
    /// left: before the text is finished, none that a line feed ends. Where a line can't be read,
    /// its fault is answered, and always from then on. Where memory runs out, the reader is as
    /// before.
    pub fn next_line(&mut self) -> Result<Option<LratLine>, LratTextFault>
        ensures said { result ≢ Err LratTextFault.OutOfMemory → result ≡ (said_to self.old).answer }
        ensures moved { result ≢ Err LratTextFault.OutOfMemory → self.new ≡ after_next self.old }
        ensures kept { result ≡ Err LratTextFault.OutOfMemory → self.new ≡ self.old }
        ensures bytes { self.new.place + length self.new.rest ≡ self.old.place + length self.old.rest }
        ensures fewer { IfOk result (λ line. OnSome line (length self.new.rest < length self.old.rest)) }
        ensures finished { self.new.finished ≡ self.old.finished }
    {
        if let Some(fault) = self.fault {
            return Err(fault);
        }
        let alloc = *self.bytes.allocator();
        let rest = &self.bytes[self.start..];
        let answered = answer_of(alloc, self.place, rest, self.finished, self.searched)?;
        self.start += answered.taken;
        self.place += answered.taken as u64;
        self.searched = answered.searched - answered.taken;
        self.fault = fault_of(&answered.answer);
        answered.answer
    }

    /// How many bytes belong to no line that was given or passed over.
    pub fn held(&self) -> usize
        ensures { result ≡ length self.now.rest }
    {
        self.bytes.len() - self.start
    }

    /// Moves the rest to the front, where that costs no more than the bytes in front of it did.
    fn compact(&mut self)
        ensures { self.new ≡ self.old }
    {
        if self.start > 0 && self.start >= self.held() {
            self.bytes.drain(..self.start);
            self.start = 0;
        }
    }
}

fn fault_of(answer: &Result<Option<LratLine>, LratTextFault>) -> Option<LratTextFault>
    ensures { result ≡ fault_of answer.now }
{
    match answer {
        Ok(_) => None,
        Err(fault) => Some(*fault),
    }
}
