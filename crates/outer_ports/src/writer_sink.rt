//! A sink over a writer.

ghost use Rattle.std.specs.{Prelude.{◌≡◌, ◌<◌, ◌≤◌, false, [], length, IfOk, OnErr}, Io.KnownBytes.WriteAppends};
ghost use Rattle.outer_ports.specs.Adapters.{WritesPiece};

use crate::failed::Failed;
use crate::sink::Sink;
use std::io;
use std::io::{ErrorKind, Write};
use std::marker::Model;

/// A sink over a writer, which is flushed after each write. Contracts see it as its writer and its
/// count of faults.
///
/// An interrupted write is made again. Each other error is a fault, and so is a write that takes
/// nothing of a nonempty piece. Over a writer that tells its bytes, exactly those are written that
/// the answer counts, and with a fault bytes from the front of the piece, or none: a flush can fail
/// behind a write. So the sink itself tells none.
#[derive(Drop)]
pub struct WriterSink<W> {
    writer: W,
    faults: u64,
}

impl<W> Model for WriterSink<W> {
    ghost use Rattle.outer_ports.specs.Adapters.{WriterSinkValue};

    ghost Value = { WriterSinkValue W };

    ghost view = { λ s. record { writer = s.writer; faults = s.faults } };
}

impl<W: Write> WriterSink<W> {
    /// A sink that writes to `writer`.
    pub fn new(writer: W) -> WriterSink<W>
        ensures { result ≡ record { writer = writer; faults = 0 } }
    {
        WriterSink { writer, faults: 0 }
    }
}

impl<W: Write> Sink for WriterSink<W> {
    ghost use Rattle.outer_ports.specs.{Memory.next_count, Port.{failed, HasCause}};

    ghost tells = { λ _. false };

    ghost written = { λ _. [] };

    ghost faults = { λ sink. sink.faults };

    /// Takes what one write of the writer takes, and flushes it.
    fn write(&mut self, piece: &[u8]) -> Result<usize, Failed>
        ensures within { IfOk result (λ n. n ≤ length piece.now) }
        ensures some { 0 < length piece.now → IfOk result (λ n. 0 < n) }
        ensures written { WritesPiece (W.contents self.old.writer) (W.contents self.new.writer) piece.now result }
        ensures err { OnErr result (self.new.faults ≡ next_count self.old.faults) }
        ensures cause { HasCause failed self.old.faults self.new.faults result }
    {
        match write_flushed(&mut self.writer, piece) {
            Ok(count) if count > 0 || piece.is_empty() => Ok(count),
            _ => {
                self.faults = self.faults.saturating_add(1);
                Err(Failed)
            }
        }
    }
}

fn write_flushed<W: Write>(writer: &mut W, piece: &[u8]) -> io::Result<usize>
    ensures within { IfOk result (λ n. n ≤ length piece.now) }
    ensures written { WritesPiece (W.contents writer.old) (W.contents writer.new) piece.now result }
{
    let count = write_retrying(writer, piece)?;
    writer.flush()?;
    Ok(count)
}

// One write, which is made again while it is interrupted.
pub(crate) fn write_retrying<W: Write>(writer: &mut W, piece: &[u8]) -> io::Result<usize>
    ensures within { IfOk result (λ n. n ≤ length piece.now) }
    ensures written { WriteAppends (W.contents writer.old) (W.contents writer.new) result piece.now }
{
    for _ in 0..u64::MAX {
        match writer.write(piece) {
            Err(e) if e.kind() == ErrorKind::Interrupted => {}
            answer => return answer,
        }
    }
    Err(io::Error::from(ErrorKind::Interrupted))
}
