//! The system's calls about the numbers of the standard streams.

ghost use Rattle.std.specs.Prelude.{false};

use crate::number_calls::{NumberCalls, Stream};
use std::fs::File;
use std::os::fd::AsFd;

/// The system's calls about the numbers of the standard streams, which tell nothing.
#[derive(Drop)]
pub struct SystemNumbers<'a> {
    rt: &'a HostRuntime,
}

impl<'a> SystemNumbers<'a> {
    /// The calls of the system that the runtime stands for.
    pub fn new(rt: &'a HostRuntime) -> SystemNumbers<'a> {
        SystemNumbers { rt }
    }
}

impl NumberCalls for SystemNumbers<'_> {
    type Holder = File;

    ghost tells = { λ _. false };

    ghost taken = { λ _ _. false };

    /// `fcntl` with `F_DUPFD_CLOEXEC` and 3, and `close` of what that gives.
    fn is_open(&mut self, stream: Stream) -> bool {
        match stream {
            Stream::Input => self.rt.stdin().as_fd().try_clone_to_owned().is_ok(),
            Stream::Output => self.rt.stdout().as_fd().try_clone_to_owned().is_ok(),
            Stream::Errors => self.rt.stderr().as_fd().try_clone_to_owned().is_ok(),
        }
    }

    /// `open` of `/` with `O_RDONLY`.
    fn take_number(&mut self) -> Option<File> {
        File::open(self.rt, "/").ok()
    }
}
