//! A source over a reader.

ghost use Rattle.std.specs.{Prelude.{◌≡◌, ◌≤◌, false, [], length, IfOk, OnErr}, Io.KnownBytes.ReadConsumes};

use crate::failed::Failed;
use crate::source::Source;
use std::io;
use std::io::{ErrorKind, Read};
use std::marker::Model;

/// A source over a reader. Contracts see it as its reader and its count of faults.
///
/// An interrupted read is made again; each other error is a fault. Over a reader that tells its
/// bytes, exactly those are taken that the buffer is given. The source itself tells none: a reader
/// that tells nothing may come to tell its bytes, and a source may not.
#[derive(Drop)]
pub struct ReaderSource<R> {
    reader: R,
    faults: u64,
}

impl<R> Model for ReaderSource<R> {
    ghost use Rattle.outer_ports.specs.Adapters.{ReaderSourceValue};

    ghost Value = { ReaderSourceValue R };

    ghost view = { λ s. record { reader = s.reader; faults = s.faults } };
}

impl<R: Read> ReaderSource<R> {
    /// A source that reads from `reader`.
    pub fn new(reader: R) -> ReaderSource<R>
        ensures { result ≡ record { reader = reader; faults = 0 } }
    {
        ReaderSource { reader, faults: 0 }
    }
}

impl<R: Read> Source for ReaderSource<R> {
    ghost use Rattle.outer_ports.specs.{Memory.next_count, Port.{failed, HasCause}};

    ghost tells = { λ _. false };

    ghost left = { λ _. [] };

    ghost faults = { λ source. source.faults };

    /// Takes what one read of the reader gives.
    fn read(&mut self, buf: &mut [u8]) -> Result<usize, Failed>
        ensures within { IfOk result (λ n. n ≤ length buf.new) }
        ensures taken { ReadConsumes (R.remaining self.old.reader) (R.remaining self.new.reader) result buf.new }
        ensures err { OnErr result (self.new.faults ≡ next_count self.old.faults) }
        ensures cause { HasCause failed self.old.faults self.new.faults result }
    {
        match read_retrying(&mut self.reader, buf) {
            Ok(count) => Ok(count),
            Err(_) => {
                self.faults = self.faults.saturating_add(1);
                Err(Failed)
            }
        }
    }
}

// One read, which is made again while it is interrupted.
pub(crate) fn read_retrying<R: Read>(reader: &mut R, buf: &mut [u8]) -> io::Result<usize>
    ensures within { IfOk result (λ n. n ≤ length buf.new) }
    ensures taken { ReadConsumes (R.remaining reader.old) (R.remaining reader.new) result buf.new }
{
    for _ in 0..u64::MAX {
        match reader.read(buf) {
            Err(e) if e.kind() == ErrorKind::Interrupted => {}
            answer => return answer,
        }
    }
    Err(io::Error::from(ErrorKind::Interrupted))
}
