//! Files in memory.

ghost use Rattle.std.specs.{Prelude.{◌≡◌, ℕ, ◌-◌, ◌<◌, ◌≤◌, ◌↔◌, List, ◌++◌, length, min, IfSome, OnErr, OnOk}, Option.option_copied};
ghost use Rattle.outer_ports.specs.{FileMaps.files_in, Shelf.{bytes_in, Begins, FilesStay, HoldsBytes, OthersStay}};

use crate::OutOfMemory;
use crate::proof_name::ProofName;
use std::alloc::Global;
use std::collections::BTreeMap;

// Files in memory, by their names.
#[derive(Drop)]
pub(crate) struct FileMap {
    alloc: Global,
    files: BTreeMap<ProofName, Vec<u8>>,
}

impl FileMap {
    // No file.
    pub(crate) fn new(alloc: Global) -> FileMap
        ensures { (name : ProofName) → files_in ⟦<ProofName as Ord>⟧.cmp result name ≡ None }
    {
        FileMap {
            alloc,
            files: BTreeMap::new(alloc),
        }
    }

    // The bytes of the file, if one has the name.
    pub(crate) fn get(&self, name: ProofName) -> Option<&[u8]>
        ensures { option_copied result ≡ files_in ⟦<ProofName as Ord>⟧.cmp self.now name }
    {
        self.files.get(&name).map(|bytes| bytes.as_slice())
    }

    // Puts the bytes in place of the file's, or makes the file.
    pub(crate) fn set(&mut self, name: ProofName, bytes: Vec<u8>) -> Result<(), OutOfMemory>
        ensures set { OnOk result (files_in ⟦<ProofName as Ord>⟧.cmp self.new name ≡ Some bytes.items) }
        ensures others { OthersStay name (files_in ⟦<ProofName as Ord>⟧.cmp self.old) (files_in ⟦<ProofName as Ord>⟧.cmp self.new) }
        ensures fault { OnErr result (FilesStay (files_in ⟦<ProofName as Ord>⟧.cmp self.old) (files_in ⟦<ProofName as Ord>⟧.cmp self.new)) }
    {
        match self.files.insert(name, bytes) {
            Ok(_) => Ok(()),
            Err(_) => Err(OutOfMemory),
        }
    }

    // Makes the file, or empties it.
    pub(crate) fn begin(&mut self, name: ProofName) -> Result<(), OutOfMemory>
        ensures { Begins (files_in ⟦<ProofName as Ord>⟧.cmp self.old) (files_in ⟦<ProofName as Ord>⟧.cmp self.new) name result }
    {
        self.set(name, Vec::new(self.alloc))
    }

    // Appends the whole piece to the file, which is made where no file has the name.
    pub(crate) fn append(&mut self, name: ProofName, piece: &[u8]) -> Result<(), OutOfMemory>
        ensures appended { OnOk result (files_in ⟦<ProofName as Ord>⟧.cmp self.new name ≡ Some (bytes_in (files_in ⟦<ProofName as Ord>⟧.cmp self.old) name ++ piece.now)) }
        ensures others { OthersStay name (files_in ⟦<ProofName as Ord>⟧.cmp self.old) (files_in ⟦<ProofName as Ord>⟧.cmp self.new) }
        ensures fault { OnErr result (FilesStay (files_in ⟦<ProofName as Ord>⟧.cmp self.old) (files_in ⟦<ProofName as Ord>⟧.cmp self.new)) }
    {
        match self.files.get_mut(&name) {
            Some(bytes) => bytes.extend_from_slice(piece),
            None => self.set(name, Vec::from_slice(self.alloc, piece)?),
        }
    }

    // Copies as many bytes of the file as it can, from `place` on.
    pub(crate) fn read_at(&self, name: ProofName, place: u64, buf: &mut [u8]) -> Option<usize>
        ensures within { IfSome result (λ n. n ≤ length buf.new) }
        ensures none { (result ≡ None) ↔ (files_in ⟦<ProofName as Ord>⟧.cmp self.now name ≡ None) }
        ensures count { (bytes : List ℕ) → files_in ⟦<ProofName as Ord>⟧.cmp self.now name ≡ Some bytes → result ≡ Some (min (length buf.new) (length bytes - place)) }
        ensures some { (bytes : List ℕ) → files_in ⟦<ProofName as Ord>⟧.cmp self.now name ≡ Some bytes → IfSome result (HoldsBytes bytes place buf.new) }
    {
        let bytes = self.get(name)?;
        let rest = &bytes[bytes.len().min(place as usize)..];
        let count = buf.len().min(rest.len());
        buf[..count].copy_from_slice(&rest[..count]);
        Some(count)
    }
}
