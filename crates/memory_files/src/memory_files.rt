//! A file system in memory.

ghost use Rattle.std.specs.{Prelude.{◌≡◌, ℕ, List, ◌<◌, true, None, Some, vec_len, IfErr, IfOk, OnErr, OnOk}, BTreeMap.get_by_text, IoError.error_kind, Option.option_copied};
ghost use Rattle.outer_ports.specs.{Disks.{bytes_at, MakesFile}, Port.Rose};
ghost use Rattle.memory_files.specs.Memory.{disk_of};

use crate::memory_file::MemoryFile;
use outer_ports::{FileCalls, OutOfMemory};
use std::alloc::Global;
use std::collections::BTreeMap;
use std::fs::Metadata;
use std::io;
use std::io::ErrorKind;

/// Files in memory, each under one name or several, with calls that fail where their numbers say
/// so. It has no links, and a folder that is made has no entry.
#[derive(Drop)]
pub struct MemoryFiles {
    alloc: Global,
    names: BTreeMap<String, usize>,
    files: Vec<Vec<u8>>,
    fails: Vec<u64>,
    calls: u64,
    failed: u64,
    ghost numbered: { (path : List ℕ) (n : ℕ) → get_by_text names path ≡ Some n → n < vec_len files },
}

impl MemoryFiles {
    /// No files. A call fails where its number is among `fails`; the calls are numbered from 0.
    pub fn new(alloc: Global, fails: Vec<u64>) -> MemoryFiles
        ensures { (path : List ℕ) → (disk_of result.names result.files.items).number path ≡ None }
    {
        MemoryFiles {
            alloc,
            names: BTreeMap::new(alloc),
            files: Vec::new(alloc),
            fails,
            calls: 0,
            failed: 0,
        }
    }

    /// The bytes of the file of that name.
    pub fn file(&self, path: &str) -> Option<&[u8]>
        ensures { option_copied result ≡ bytes_at (disk_of self.now.names self.now.files.items) path.now }
    {
        let number = *self.names.get(path)?;
        let bytes = self.files.get(number)?;
        Some(bytes)
    }

    /// Gives the file of a name a second one, in place of the file that has that.
    pub fn link(&mut self, path: &str, other: &str) -> Result<(), OutOfMemory> {
        let Some(number) = self.names.get(path).copied() else {
            return Ok(());
        };
        let other = String::from_str(self.alloc, other)?;
        match self.names.insert(other, number) {
            Ok(_) => Ok(()),
            Err(_) => Err(OutOfMemory),
        }
    }

    // Counts a call, which fails where its number says so.
    fn goes(&mut self) -> io::Result<()>
        ensures names { self.new.names ≡ self.old.names }
        ensures files { self.new.files ≡ self.old.files }
        ensures ok { OnOk result (self.new.failed ≡ self.old.failed) }
        ensures rose { OnErr result (Rose self.old.failed self.new.failed) }
        ensures kind { IfErr result (λ error. error_kind error ≡ ErrorKind.Other) }
    {
        let fails = self.fails.contains(&self.calls);
        self.calls = self.calls.saturating_add(1);
        if fails {
            return Err(self.fault());
        }
        Ok(())
    }

    // Counts a fault.
    fn fault(&mut self) -> io::Error
        ensures names { self.new.names ≡ self.old.names }
        ensures files { self.new.files ≡ self.old.files }
        ensures rose { Rose self.old.failed self.new.failed }
        ensures kind { error_kind result ≡ ErrorKind.Other }
    {
        self.failed = self.failed.saturating_add(1);
        io::Error::from(ErrorKind::Other)
    }

    // Makes an empty file, and answers its number.
    fn add(&mut self, path: &str) -> Result<usize, OutOfMemory>
        ensures made { IfOk result (λ n. get_by_text self.old.names path.now ≡ None → MakesFile path.now n (disk_of self.old.names self.old.files.items) (disk_of self.new.names self.new.files.items)) }
        ensures fault { OnErr result (disk_of self.new.names self.new.files.items ≡ disk_of self.old.names self.old.files.items) }
        ensures failed { self.new.failed ≡ self.old.failed }
    {
        let number = self.files.len();
        let name = String::from_str(self.alloc, path)?;
        self.files.reserve(1)?;
        if self.names.insert(name, number).is_err() {
            return Err(OutOfMemory);
        }
        let Ok(()) = self.files.push(Vec::new(self.alloc)) else {
            unreachable!();
        };
        Ok(number)
    }
}

impl FileCalls for MemoryFiles {
    type File = MemoryFile;

    ghost tells = { λ _. true };

    ghost disk = { λ s. disk_of s.names s.files.items };

    ghost failed = { λ s. s.failed };

    ghost number = { λ file. file.number };

    fn look(&mut self, path: &str) -> io::Result<Metadata> {
        self.goes()?;
        match self.names.get(path) {
            Some(_) => Ok(Metadata::of_file(0)),
            None => Err(io::Error::from(ErrorKind::NotFound)),
        }
    }

    fn make_folder(&mut self, _path: &str) -> io::Result<()> {
        self.goes()
    }

    fn make_file(&mut self, path: &str) -> io::Result<MemoryFile> {
        self.goes()?;
        if self.names.get(path).is_some() {
            return Err(io::Error::from(ErrorKind::AlreadyExists));
        }
        match self.add(path) {
            Ok(number) => Ok(MemoryFile { number }),
            Err(_) => Err(self.fault()),
        }
    }

    fn remove_file(&mut self, path: &str) -> io::Result<()> {
        self.goes()?;
        match self.names.remove(path) {
            Some(_) => Ok(()),
            None => Err(self.fault()),
        }
    }

    fn rename(&mut self, from: &str, to: &str) -> io::Result<()> {
        self.goes()?;
        let Some(number) = self.names.get(from).copied() else {
            return Err(self.fault());
        };
        let Ok(name) = String::from_str(self.alloc, to) else {
            return Err(self.fault());
        };
        if self.names.insert(name, number).is_err() {
            return Err(self.fault());
        }
        let _gone = self.names.remove(from);
        Ok(())
    }

    fn open_file(&mut self, path: &str) -> io::Result<MemoryFile> {
        self.goes()?;
        match self.names.get(path).copied() {
            Some(number) => Ok(MemoryFile { number }),
            None => Err(self.fault()),
        }
    }

    fn read_at(&mut self, file: &MemoryFile, place: u64, buf: &mut [u8]) -> io::Result<usize> {
        self.goes()?;
        let Some(bytes) = self.files.get(file.number) else {
            return Err(self.fault());
        };
        let rest = &bytes[bytes.len().min(place as usize)..];
        let count = buf.len().min(rest.len());
        buf[..count].copy_from_slice(&rest[..count]);
        Ok(count)
    }

    fn write(&mut self, file: &MemoryFile, piece: &[u8]) -> io::Result<usize> {
        self.goes()?;
        let Some(bytes) = self.files.get_mut(file.number) else {
            return Err(self.fault());
        };
        if bytes.extend_from_slice(piece).is_err() {
            return Err(self.fault());
        }
        Ok(piece.len())
    }

    fn close(&mut self, file: MemoryFile) -> io::Result<()> {
        let MemoryFile { number: _ } = file;
        self.goes()
    }
}
