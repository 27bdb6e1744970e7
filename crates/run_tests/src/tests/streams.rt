//! Streams whose calls are interrupted, and fail.

use outer_ports::{Failed, ReaderSource, Sink, Source, WriterSink};
use std::io;
use std::io::{ErrorKind, Read, Write};
use std::test::Fail;

/// The first call is interrupted, the second moves a byte, the third fails, and the others move
/// nothing.
#[derive(Drop)]
struct Flaky {
    calls: u8,
}

impl Flaky {
    fn call(&mut self) -> io::Result<usize> {
        self.calls = self.calls.saturating_add(1);
        match self.calls {
            1 => Err(io::Error::from(ErrorKind::Interrupted)),
            2 => Ok(1),
            3 => Err(io::Error::from(ErrorKind::BrokenPipe)),
            _ => Ok(0),
        }
    }
}

impl Read for Flaky {
    fn read(&mut self, buf: &mut [u8]) -> io::Result<usize> {
        Ok(self.call()?.min(buf.len()))
    }
}

impl Write for Flaky {
    fn write(&mut self, buf: &[u8]) -> io::Result<usize> {
        Ok(self.call()?.min(buf.len()))
    }

    fn flush(&mut self) -> io::Result<()> {
        Ok(())
    }
}

#[test]
fn interrupted_calls_are_made_again(rt: HostRuntime) -> Result<(), Fail> {
    let mut source = ReaderSource::new(Flaky { calls: 0 });
    let mut buf = [0; 4];
    for answer in [Ok(1), Err(Failed), Ok(0)] {
        assert_eq!(rt; source.read(&mut buf), answer);
    }
    let mut sink = WriterSink::new(Flaky { calls: 0 });
    for answer in [Ok(1), Err(Failed), Err(Failed)] {
        assert_eq!(rt; sink.write(b"four"), answer);
    }
    Ok(())
}
