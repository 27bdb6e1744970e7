//! A shelf in memory.

ghost use Rattle.std.specs.{Prelude.{◌≡◌, ℕ, ◌-◌, ◌<◌, ◌≤◌, ◌↔◌, true, None, Some, List, length, min, Contains, IfOk, IfSome, IsErr, OnErr, OnOk}, Option.option_copied};
ghost use Rattle.outer_ports.specs.{Memory.next_count, FileMaps.files_in, Port.{failed, HasCause}, Shelf.{AppendsTo, Begins, FilesStay, OthersStay, ReadsAt}};

use crate::OutOfMemory;
use crate::failed::Failed;
use crate::file_map::FileMap;
use crate::proof_name::ProofName;
use crate::shelf::Shelf;
use crate::shelf_fault::ShelfFault;
use std::alloc::Global;

/// A shelf that keeps its files in memory, moves at most a piece at each call, and whose calls fail
/// where their numbers say so.
#[derive(Drop)]
pub struct MemoryShelf {
    files: FileMap,
    piece: usize,
    fails: Vec<u64>,
    calls: u64,
    faults: u64,
    ghost some: { 1 ≤ piece },
}

impl MemoryShelf {
    ghost use Rattle.outer_ports.specs.MemoryShelves.{piece_of, fails_of, calls_of};

    /// A shelf without files. A call moves at most `piece` bytes, which is at least 1, and fails
    /// where its number is among `fails`; the calls are numbered from 0.
    pub fn new(alloc: Global, piece: usize, fails: Vec<u64>) -> Result<MemoryShelf, OutOfMemory>
        requires { 1 ≤ piece }
        ensures files { IfOk result (λ shelf. (name : ProofName) → ⟦<MemoryShelf as Shelf>⟧.file shelf name ≡ None) }
        ensures piece { IfOk result (λ shelf. piece_of shelf ≡ piece) }
        ensures fails { IfOk result (λ shelf. fails_of shelf ≡ fails.items) }
        ensures calls { IfOk result (λ shelf. calls_of shelf ≡ 0) }
        ensures faults { IfOk result (λ shelf. ⟦<MemoryShelf as Shelf>⟧.faults shelf ≡ 0) }
    {
        Ok(MemoryShelf {
            files: FileMap::new(alloc),
            piece,
            fails,
            calls: 0,
            faults: 0,
        })
    }

    /// The bytes of the file. `None` comes exactly where no file has the name.
    pub fn file(&self, name: ProofName) -> Option<&[u8]>
        ensures { option_copied result ≡ ⟦<MemoryShelf as Shelf>⟧.file self.now name }
    {
        self.files.get(name)
    }

    /// Puts the bytes in place of the file's, or makes the file, and changes no other. An `Err`
    /// comes only where memory runs out, and leaves every file as it was. It is no call of the
    /// shelf, and fails nowhere.
    pub fn set(&mut self, name: ProofName, bytes: Vec<u8>) -> Result<(), OutOfMemory>
        ensures set { OnOk result (⟦<MemoryShelf as Shelf>⟧.file self.new name ≡ Some bytes.items) }
        ensures others { OthersStay name (⟦<MemoryShelf as Shelf>⟧.file self.old) (⟦<MemoryShelf as Shelf>⟧.file self.new) }
        ensures unchanged { OnErr result (FilesStay (⟦<MemoryShelf as Shelf>⟧.file self.old) (⟦<MemoryShelf as Shelf>⟧.file self.new)) }
        ensures piece { piece_of self.new ≡ piece_of self.old }
        ensures fails { fails_of self.new ≡ fails_of self.old }
        ensures calls { calls_of self.new ≡ calls_of self.old }
        ensures faults { ⟦<MemoryShelf as Shelf>⟧.faults self.new ≡ ⟦<MemoryShelf as Shelf>⟧.faults self.old }
    {
        self.files.set(name, bytes)
    }

    // Counts a call, which fails where its number says so.
    fn goes(&mut self) -> Result<(), Failed>
        ensures fails { IsErr result ↔ Contains (fails_of self.old) (calls_of self.old) }
        ensures cause { HasCause failed self.old.faults self.new.faults result }
        ensures ok { OnOk result (self.new ≡ record self.old { calls = next_count self.old.calls }) }
        ensures err { OnErr result (self.new ≡ record self.old { calls = next_count self.old.calls; faults = next_count self.old.faults }) }
    {
        let fails = self.fails.contains(&self.calls);
        self.calls = self.calls.saturating_add(1);
        if fails {
            self.faults = self.faults.saturating_add(1);
            return Err(Failed);
        }
        Ok(())
    }
}

impl Shelf for MemoryShelf {
    ghost use Rattle.outer_ports.specs.MemoryShelves.{piece_of, IsCall};

    ghost tells = { λ _. true };

    ghost file = { λ shelf. files_in ⟦<ProofName as Ord>⟧.cmp shelf.files };

    ghost faults = { λ shelf. shelf.faults };

    /// As every shelf. Fails exactly where the number of this call says so.
    fn begin(&mut self, name: ProofName) -> Result<(), ShelfFault>
        ensures begun { Begins (⟦<MemoryShelf as Shelf>⟧.file self.old) (⟦<MemoryShelf as Shelf>⟧.file self.new) name result }
        ensures cause { HasCause ShelfFault.Failed (⟦<MemoryShelf as Shelf>⟧.faults self.old) (⟦<MemoryShelf as Shelf>⟧.faults self.new) result }
        ensures call { IsCall self.old self.new result }
    {
        self.goes()?;
        self.files.begin(name)?;
        Ok(())
    }

    /// Appends as many bytes as it can. Fails exactly where the number of this call says so.
    fn append(&mut self, name: ProofName, piece: &[u8]) -> Result<usize, ShelfFault>
        ensures count { IfOk result (λ n. n ≡ min (piece_of self.old) (length piece.now)) }
        ensures some { 0 < length piece.now → IfOk result (λ n. 0 < n) }
        ensures appended { AppendsTo (⟦<MemoryShelf as Shelf>⟧.file self.old) (⟦<MemoryShelf as Shelf>⟧.file self.new) name piece.now result }
        ensures cause { HasCause ShelfFault.Failed (⟦<MemoryShelf as Shelf>⟧.faults self.old) (⟦<MemoryShelf as Shelf>⟧.faults self.new) result }
        ensures call { IsCall self.old self.new result }
    {
        self.goes()?;
        let count = self.piece.min(piece.len());
        self.files.append(name, &piece[..count])?;
        Ok(count)
    }

    /// Copies as many bytes as it can. Fails exactly where the number of this call says so.
    fn read_at(
        &mut self,
        name: ProofName,
        place: u64,
        buf: &mut [u8],
    ) -> Result<Option<usize>, ShelfFault>
        ensures within { IfOk result (λ count. IfSome count (λ n. n ≤ length buf.new)) }
        ensures stay { FilesStay (⟦<MemoryShelf as Shelf>⟧.file self.old) (⟦<MemoryShelf as Shelf>⟧.file self.new) }
        ensures read { ReadsAt (⟦<MemoryShelf as Shelf>⟧.file self.old) name place buf.new result }
        ensures count { (bytes : List ℕ) → ⟦<MemoryShelf as Shelf>⟧.file self.old name ≡ Some bytes →
            IfOk result (λ count. count ≡ Some (min (piece_of self.old) (min (length buf.new) (length bytes - place)))) }
        ensures cause { HasCause ShelfFault.Failed (⟦<MemoryShelf as Shelf>⟧.faults self.old) (⟦<MemoryShelf as Shelf>⟧.faults self.new) result }
        ensures call { IsCall self.old self.new result }
    {
        self.goes()?;
        let most = self.piece.min(buf.len());
        Ok(self.files.read_at(name, place, &mut buf[..most]))
    }
}
