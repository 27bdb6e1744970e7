//! Proof files in a folder.

ghost use Rattle.std.specs.{Prelude.{◌≡◌, ◌≢◌, ◌<◌, ◌≤◌, ◌^◌, ◌↔◌, List, ℕ, None, Some, Ok, Err, true, false, length, IfOk, IfSome, IsTrue, OnOk, string_bytes}, Option.option_map};
ghost use Rattle.outer_ports.specs.{Folders.{files_in_folder, path_in}, Port.Tells, Shelf.{AppendsTo, Begins, FilesStay, HoldsBytes, ReadsAt}, inner.{Keeping.{AllHeld, AllRead}, OpenFiles.open_of}};

use crate::beginning::{make_anew, make_folder, path_of};
use crate::failed::Failed;
use crate::file_calls::FileCalls;
use crate::looking::open_to_read;
use crate::moving::{append_some, close_held, read_some};
use crate::open_files::OpenFiles;
use crate::proof_name::ProofName;
use crate::shelf_fault::ShelfFault;
use std::alloc::Global;
use std::mem;

// The last place of a file that a reading goes to.
const MOST_PLACE: u64 = 9_223_372_036_854_775_807;

// A folder that is reached by single calls, the files of it that stay open for appending, and the
// one that stays open for reading.
pub(crate) struct Folder<C: FileCalls> {
    alloc: Global,
    calls: C,
    path: String,
    is_made: bool,
    begun: OpenFiles<C::File>,
    reading: Option<(ProofName, C::File)>,
    ghost held: { IsTrue (C.tells calls) → AllHeld C.number (C.disk calls) (string_bytes path) begun },
    ghost read: { IsTrue (C.tells calls) → AllRead C.number (C.disk calls) (string_bytes path) reading },
}

impl<C: FileCalls> Folder<C> {
    // A folder that is made with its first file.
    pub(crate) fn new(alloc: Global, calls: C, path: String) -> Folder<C>
        ensures calls { result.calls ≡ calls }
        ensures path { result.path ≡ path }
    {
        Folder {
            alloc,
            calls,
            path,
            is_made: false,
            begun: OpenFiles::new(),
            reading: None,
        }
    }

    // Makes the folder if that was not done yet, and the file anew. The file is left open.
    pub(crate) fn begin(&mut self, name: ProofName) -> Result<(), ShelfFault>
        ensures path { self.new.path ≡ self.old.path }
        ensures told { Tells (C.tells self.old.calls) (C.tells self.new.calls) }
        ensures begun { IsTrue (C.tells self.new.calls) →
            Begins (files_in_folder (C.disk self.old.calls) (string_bytes self.old.path)) (files_in_folder (C.disk self.new.calls) (string_bytes self.old.path)) name result }
        ensures counted { IsTrue (C.tells self.new.calls) → result ≢ Err ShelfFault.Failed → C.failed self.new.calls ≡ C.failed self.old.calls }
    {
        self.prepare(name)?;
        let file = make_anew(&mut self.calls, self.alloc, &self.path, name)?;
        let left = self.begun.replace(name.kind, Some((name, file)));
        close_held(&mut self.calls, left)?;
        Ok(())
    }

    // Appends bytes from the front of the piece to the file, which is left open. It has to be open.
    pub(crate) fn append(&mut self, name: ProofName, piece: &[u8]) -> Result<usize, ShelfFault>
        ensures path { self.new.path ≡ self.old.path }
        ensures within { IfOk result (λ n. n ≤ length piece.now) }
        ensures some { 0 < length piece.now → IfOk result (λ n. 0 < n) }
        ensures told { Tells (C.tells self.old.calls) (C.tells self.new.calls) }
        ensures appended { IsTrue (C.tells self.new.calls) →
            AppendsTo (files_in_folder (C.disk self.old.calls) (string_bytes self.old.path)) (files_in_folder (C.disk self.new.calls) (string_bytes self.old.path)) name piece.now result }
        ensures counted { IsTrue (C.tells self.new.calls) → result ≢ Err ShelfFault.Failed → C.failed self.new.calls ≡ C.failed self.old.calls }
    {
        let Some(file) = self.begun.get(name) else {
            return Err(ShelfFault::Failed);
        };
        match append_some(&mut self.calls, file, piece) {
            Ok(count) => Ok(count),
            Err(_) => {
                close_held(&mut self.calls, self.begun.replace(name.kind, None))?;
                Err(ShelfFault::Failed)
            }
        }
    }

    // Copies the bytes of the file from `place` on into the front of `buf`. The file is left open
    // until none are left.
    pub(crate) fn read_at(
        &mut self,
        name: ProofName,
        place: u64,
        buf: &mut [u8],
    ) -> Result<Option<usize>, ShelfFault>
        ensures path { self.new.path ≡ self.old.path }
        ensures within { IfOk result (λ count. IfSome count (λ n. n ≤ length buf.new)) }
        ensures told { Tells (C.tells self.old.calls) (C.tells self.new.calls) }
        ensures stays { IsTrue (C.tells self.new.calls) → C.disk self.new.calls ≡ C.disk self.old.calls }
        ensures read { IsTrue (C.tells self.new.calls) →
            ReadsAt (files_in_folder (C.disk self.old.calls) (string_bytes self.old.path)) name place buf.new result }
        ensures counted { IsTrue (C.tells self.new.calls) → result ≢ Err ShelfFault.Failed → C.failed self.new.calls ≡ C.failed self.old.calls }
    {
        // No file is so long, and no reading goes there.
        if place > MOST_PLACE {
            return Err(ShelfFault::Failed);
        }
        if !self.is_read(name) && !self.start_reading(name)? {
            return Ok(None);
        }
        let count = self.read_held(name, place, buf)?;
        Ok(Some(count))
    }

    // Closes each file that is open, and gives back the calls.
    pub(crate) fn close(self) -> (C, Result<(), Failed>)
        ensures told { Tells (C.tells self.calls) (C.tells result.0) }
        ensures stays { IsTrue (C.tells result.0) → C.disk result.0 ≡ C.disk self.calls }
        ensures counted { IsTrue (C.tells result.0) → OnOk result.1 (C.failed result.0 ≡ C.failed self.calls) }
    {
        let Folder {
            alloc: _,
            mut calls,
            path: _,
            is_made: _,
            begun,
            reading,
        } = self;
        let (cnf, lrat, partial) = begun.into_parts();
        let read = close_held(&mut calls, reading);
        let cnf = close_held(&mut calls, cnf);
        let lrat = close_held(&mut calls, lrat);
        let partial = close_held(&mut calls, partial);
        (calls, read.and(cnf).and(lrat).and(partial))
    }

    // Closes what a file that is begun takes the place of, and makes the folder.
    fn prepare(&mut self, name: ProofName) -> Result<(), Failed>
        ensures path { self.new.path ≡ self.old.path }
        ensures told { Tells (C.tells self.old.calls) (C.tells self.new.calls) }
        ensures stay { IsTrue (C.tells self.new.calls) →
            FilesStay (files_in_folder (C.disk self.old.calls) (string_bytes self.old.path)) (files_in_folder (C.disk self.new.calls) (string_bytes self.old.path)) }
        ensures none { OnOk result (open_of self.new.begun name.kind ≡ None) }
        ensures unread { OnOk result (option_map (λ held. held.0) self.new.reading ≢ Some name) }
        ensures counted { IsTrue (C.tells self.new.calls) → OnOk result (C.failed self.new.calls ≡ C.failed self.old.calls) }
    {
        self.give_up(name)?;
        self.make_folder()
    }

    // Closes the open file of that kind, and that of that name which is read.
    fn give_up(&mut self, name: ProofName) -> Result<(), Failed>
        ensures path { self.new.path ≡ self.old.path }
        ensures told { Tells (C.tells self.old.calls) (C.tells self.new.calls) }
        ensures stays { IsTrue (C.tells self.new.calls) → C.disk self.new.calls ≡ C.disk self.old.calls }
        ensures none { OnOk result (open_of self.new.begun name.kind ≡ None) }
        ensures unread { OnOk result (option_map (λ held. held.0) self.new.reading ≢ Some name) }
        ensures counted { IsTrue (C.tells self.new.calls) → OnOk result (C.failed self.new.calls ≡ C.failed self.old.calls) }
    {
        close_held(&mut self.calls, self.begun.replace(name.kind, None))?;
        if self.is_read(name) {
            close_held(&mut self.calls, self.reading.take())?;
        }
        Ok(())
    }

    // Makes the folder if that was not done yet.
    fn make_folder(&mut self) -> Result<(), Failed>
        ensures path { self.new.path ≡ self.old.path }
        ensures begun { self.new.begun ≡ self.old.begun }
        ensures reading { self.new.reading ≡ self.old.reading }
        ensures told { Tells (C.tells self.old.calls) (C.tells self.new.calls) }
        ensures stay { IsTrue (C.tells self.new.calls) →
            FilesStay (files_in_folder (C.disk self.old.calls) (string_bytes self.old.path)) (files_in_folder (C.disk self.new.calls) (string_bytes self.old.path)) }
        ensures counted { IsTrue (C.tells self.new.calls) → OnOk result (C.failed self.new.calls ≡ C.failed self.old.calls) }
    {
        if !self.is_made {
            make_folder(&mut self.calls, &self.path)?;
            self.is_made = true;
        }
        Ok(())
    }

    // Whether the file is open for reading.
    fn is_read(&self, name: ProofName) -> bool
        ensures { IsTrue result ↔ (option_map (λ held. held.0) self.now.reading ≡ Some name) }
    {
        match &self.reading {
            Some((held, _)) => *held == name,
            None => false,
        }
    }

    // Opens the file for reading, in place of the one that is read. Answers false if no file has
    // the name.
    fn start_reading(&mut self, name: ProofName) -> Result<bool, ShelfFault>
        ensures path { self.new.path ≡ self.old.path }
        ensures told { Tells (C.tells self.old.calls) (C.tells self.new.calls) }
        ensures stays { IsTrue (C.tells self.new.calls) → C.disk self.new.calls ≡ C.disk self.old.calls }
        ensures there { result ≡ Ok true → option_map (λ held. held.0) self.new.reading ≡ Some name }
        ensures missing { IsTrue (C.tells self.new.calls) → result ≡ Ok false →
            (C.disk self.old.calls).number (path_in (string_bytes self.old.path) name) ≡ None }
        ensures counted { IsTrue (C.tells self.new.calls) → result ≢ Err ShelfFault.Failed → C.failed self.new.calls ≡ C.failed self.old.calls }
    {
        let path = path_of(self.alloc, &self.path, name)?;
        let held = self.reading.take();
        match open_to_read(&mut self.calls, held, &path)? {
            None => Ok(false),
            Some(file) => {
                let left = mem::replace(&mut self.reading, Some((name, file)));
                close_held(&mut self.calls, left)?;
                Ok(true)
            }
        }
    }

    // Copies bytes of the file that is read, and closes it if there are none.
    fn read_held(&mut self, name: ProofName, place: u64, buf: &mut [u8]) -> Result<usize, Failed>
        requires place { place < 2 ^ 63 }
        requires held { option_map (λ held. held.0) self.old.reading ≡ Some name }
        ensures path { self.new.path ≡ self.old.path }
        ensures within { IfOk result (λ n. n ≤ length buf.new) }
        ensures told { Tells (C.tells self.old.calls) (C.tells self.new.calls) }
        ensures stays { IsTrue (C.tells self.new.calls) → C.disk self.new.calls ≡ C.disk self.old.calls }
        ensures there { IsTrue (C.tells self.new.calls) → files_in_folder (C.disk self.old.calls) (string_bytes self.old.path) name ≢ None }
        ensures read { IsTrue (C.tells self.new.calls) → (bytes : List ℕ) →
            files_in_folder (C.disk self.old.calls) (string_bytes self.old.path) name ≡ Some bytes →
            IfOk result (HoldsBytes bytes place buf.new) }
        ensures counted { IsTrue (C.tells self.new.calls) → OnOk result (C.failed self.new.calls ≡ C.failed self.old.calls) }
    {
        let Some((_, file)) = &self.reading else {
            return Err(Failed);
        };
        let answer = read_some(&mut self.calls, file, place, buf);
        if matches!(answer, Ok(0) | Err(_)) {
            close_held(&mut self.calls, self.reading.take())?;
        }
        answer
    }
}
