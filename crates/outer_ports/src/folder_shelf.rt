//! A shelf over a folder.

ghost use Rattle.std.specs.Prelude.{◌≡◌, ◌≢◌, ◌<◌, ◌≤◌, Err, length, IfOk, IfSome, IsTrue, OnOk, string_bytes};
ghost use Rattle.outer_ports.specs.{Folders.files_in_folder, Port.{HasCause, Tells}, Shelf.{AppendsTo, Begins, FilesStay, ReadsAt}};

use crate::failed::Failed;
use crate::file_calls::FileCalls;
use crate::folder::Folder;
use crate::proof_name::ProofName;
use crate::shelf::Shelf;
use crate::shelf_fault::ShelfFault;
use std::alloc::Global;

/// A shelf over a folder that is reached by single calls. It tells its files where these calls tell
/// theirs, and counts its own faults.
///
/// The folder is made at the first `begin`, and not before; its parent has to be there. A file has
/// the name that `{}` prints of its [`ProofName`]. A file that is begun is made anew, and takes the
/// name from the file or the link that had it: no link is followed, and what had the name stays as
/// it was under every other name. It is made under the name `new`, which no proof file has.
///
/// A file that was begun stays open, one of each kind, and is appended to while it is open. Each
/// other `append` is a fault: the file might have a second name, which would change too. A file
/// that is read stays open until no bytes of it are left, or another one is read.
///
/// An interrupted reading or writing is made again. Each other error is a fault, and so are a write
/// that takes nothing of a nonempty piece, a link under the name of a file that is read, and a
/// thing of another kind under any file's name. Where the calls tell, no fault of a call is lost.
pub struct FolderShelf<C: FileCalls> {
    folder: Folder<C>,
    faults: u64,
}

impl<C: FileCalls> FolderShelf<C> {
    /// A shelf over the folder of that path, which is not looked at yet.
    pub fn new(alloc: Global, calls: C, folder: String) -> FolderShelf<C>
        ensures calls { result.folder.calls ≡ calls }
        ensures path { result.folder.path ≡ folder }
        ensures faults { result.faults ≡ 0 }
    {
        FolderShelf {
            folder: Folder::new(alloc, calls, folder),
            faults: 0,
        }
    }

    /// Closes each file that is open, and gives back the calls. [`Failed`] comes only where a close
    /// failed. No file changes.
    pub fn close(self) -> (C, Result<(), Failed>)
        ensures told { Tells (C.tells self.folder.calls) (C.tells result.0) }
        ensures stays { IsTrue (C.tells result.0) → C.disk result.0 ≡ C.disk self.folder.calls }
        ensures counted { IsTrue (C.tells result.0) → OnOk result.1 (C.failed result.0 ≡ C.failed self.folder.calls) }
    {
        let FolderShelf { folder, faults: _ } = self;
        folder.close()
    }

    // Counts a fault of the answer.
    fn count<T>(&mut self, answer: &Result<T, ShelfFault>)
        ensures folder { self.new.folder ≡ self.old.folder }
        ensures cause { HasCause ShelfFault.Failed self.old.faults self.new.faults answer.now }
    {
        if let Err(ShelfFault::Failed) = answer {
            self.faults = self.faults.saturating_add(1);
        }
    }
}

impl<C: FileCalls> Shelf for FolderShelf<C> {
    ghost tells = { λ s. C.tells s.folder.calls };

    ghost file = { λ s. files_in_folder (C.disk s.folder.calls) (string_bytes s.folder.path) };

    ghost faults = { λ s. s.faults };

    /// As every shelf. Where the calls tell, an answer that is no fault says that none failed.
    fn begin(&mut self, name: ProofName) -> Result<(), ShelfFault>
        ensures told { Tells (C.tells self.old.folder.calls) (C.tells self.new.folder.calls) }
        ensures begun { IsTrue (C.tells self.new.folder.calls) →
            Begins (files_in_folder (C.disk self.old.folder.calls) (string_bytes self.old.folder.path)) (files_in_folder (C.disk self.new.folder.calls) (string_bytes self.new.folder.path)) name result }
        ensures cause { HasCause ShelfFault.Failed self.old.faults self.new.faults result }
        ensures counted { IsTrue (C.tells self.new.folder.calls) → result ≢ Err ShelfFault.Failed → C.failed self.new.folder.calls ≡ C.failed self.old.folder.calls }
    {
        let answer = self.folder.begin(name);
        self.count(&answer);
        answer
    }

    /// As every shelf. Where the calls tell, an answer that is no fault says that none failed.
    fn append(&mut self, name: ProofName, piece: &[u8]) -> Result<usize, ShelfFault>
        ensures within { IfOk result (λ n. n ≤ length piece.now) }
        ensures some { 0 < length piece.now → IfOk result (λ n. 0 < n) }
        ensures told { Tells (C.tells self.old.folder.calls) (C.tells self.new.folder.calls) }
        ensures appended { IsTrue (C.tells self.new.folder.calls) →
            AppendsTo (files_in_folder (C.disk self.old.folder.calls) (string_bytes self.old.folder.path)) (files_in_folder (C.disk self.new.folder.calls) (string_bytes self.new.folder.path)) name piece.now result }
        ensures cause { HasCause ShelfFault.Failed self.old.faults self.new.faults result }
        ensures counted { IsTrue (C.tells self.new.folder.calls) → result ≢ Err ShelfFault.Failed → C.failed self.new.folder.calls ≡ C.failed self.old.folder.calls }
    {
        let answer = self.folder.append(name, piece);
        self.count(&answer);
        answer
    }

    /// As every shelf. Where the calls tell, an answer that is no fault says that none failed.
    fn read_at(
        &mut self,
        name: ProofName,
        place: u64,
        buf: &mut [u8],
    ) -> Result<Option<usize>, ShelfFault>
        ensures within { IfOk result (λ count. IfSome count (λ n. n ≤ length buf.new)) }
        ensures told { Tells (C.tells self.old.folder.calls) (C.tells self.new.folder.calls) }
        ensures stay { IsTrue (C.tells self.new.folder.calls) →
            FilesStay (files_in_folder (C.disk self.old.folder.calls) (string_bytes self.old.folder.path)) (files_in_folder (C.disk self.new.folder.calls) (string_bytes self.new.folder.path)) }
        ensures read { IsTrue (C.tells self.new.folder.calls) →
            ReadsAt (files_in_folder (C.disk self.old.folder.calls) (string_bytes self.old.folder.path)) name place buf.new result }
        ensures cause { HasCause ShelfFault.Failed self.old.faults self.new.faults result }
        ensures counted { IsTrue (C.tells self.new.folder.calls) → result ≢ Err ShelfFault.Failed → C.failed self.new.folder.calls ≡ C.failed self.old.folder.calls }
    {
        let answer = self.folder.read_at(name, place, buf);
        self.count(&answer);
        answer
    }
}
