//! A shelf that never fails.

ghost use Rattle.std.specs.Prelude.{◌≡◌, true, None, IfOk};
ghost use Rattle.outer_ports.specs.FileMaps.{files_in};

use crate::OutOfMemory;
use crate::file_map::FileMap;
use crate::proof_name::ProofName;
use crate::shelf::Shelf;
use crate::shelf_fault::ShelfFault;
use std::alloc::Global;

/// A shelf that keeps its files in memory and never fails: of its faults only out of memory comes.
#[derive(Drop)]
pub struct SureShelf {
    files: FileMap,
}

impl SureShelf {
    /// A shelf without files.
    pub fn new(alloc: Global) -> Result<SureShelf, OutOfMemory>
        ensures { IfOk result (λ shelf. (name : ProofName) → ⟦<SureShelf as Shelf>⟧.file shelf name ≡ None) }
    {
        Ok(SureShelf {
            files: FileMap::new(alloc),
        })
    }
}

impl Shelf for SureShelf {
    ghost tells = { λ _. true };

    ghost file = { λ shelf. files_in ⟦<ProofName as Ord>⟧.cmp shelf.files };

    ghost faults = { λ _. 0 };

    fn begin(&mut self, name: ProofName) -> Result<(), ShelfFault> {
        self.files.begin(name)?;
        Ok(())
    }

    fn append(&mut self, name: ProofName, piece: &[u8]) -> Result<usize, ShelfFault> {
        self.files.append(name, piece)?;
        Ok(piece.len())
    }

    fn read_at(
        &mut self,
        name: ProofName,
        place: u64,
        buf: &mut [u8],
    ) -> Result<Option<usize>, ShelfFault> {
        Ok(self.files.read_at(name, place, buf))
    }
}
