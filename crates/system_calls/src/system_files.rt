//! The system's calls of files.

ghost use Rattle.std.specs.Prelude.{false};
ghost use Rattle.system_calls.specs.Untold.{no_disk};

use outer_ports::FileCalls;
use std::fs::{File, Metadata, OpenOptions};
use std::io::Write;
use std::os::unix::fs::FileExt;
use std::{fs, io};

/// The system's calls of files, which tell nothing. Each method is the one call that its comment
/// names.
#[derive(Drop)]
pub struct SystemFiles<'a> {
    rt: &'a HostRuntime,
}

impl<'a> SystemFiles<'a> {
    /// The calls of the system that the runtime stands for.
    pub fn new(rt: &'a HostRuntime) -> SystemFiles<'a> {
        SystemFiles { rt }
    }
}

impl FileCalls for SystemFiles<'_> {
    type File = File;

    ghost tells = { λ _. false };

    ghost disk = { λ _. no_disk };

    ghost failed = { λ _. 0 };

    ghost number = { λ _. 0 };

    /// `statx`, of a link itself.
    fn look(&mut self, path: &str) -> io::Result<Metadata> {
        fs::symlink_metadata(self.rt, path)
    }

    /// `mkdir`.
    fn make_folder(&mut self, path: &str) -> io::Result<()> {
        fs::create_dir(self.rt, path)
    }

    /// `open` with `O_WRONLY | O_APPEND | O_CREAT | O_EXCL`.
    fn make_file(&mut self, path: &str) -> io::Result<File> {
        OpenOptions::new()
            .append(true)
            .create_new(true)
            .open(self.rt, path)
    }

    /// `unlink`.
    fn remove_file(&mut self, path: &str) -> io::Result<()> {
        fs::remove_file(self.rt, path)
    }

    /// `rename`.
    fn rename(&mut self, from: &str, to: &str) -> io::Result<()> {
        fs::rename(self.rt, from, to)
    }

    /// `open` with `O_RDONLY`.
    fn open_file(&mut self, path: &str) -> io::Result<File> {
        File::open(self.rt, path)
    }

    /// `pread`.
    fn read_at(&mut self, file: &File, place: u64, buf: &mut [u8]) -> io::Result<usize> {
        file.read_at(buf, place)
    }

    /// `write`.
    fn write(&mut self, file: &File, piece: &[u8]) -> io::Result<usize> {
        let mut file = file;
        file.write(piece)
    }

    /// `close`, as the file is dropped. The library does not tell whether it failed.
    fn close(&mut self, file: File) -> io::Result<()> {
        drop(file);
        Ok(())
    }
}
