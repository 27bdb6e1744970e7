//! A shelf that stays empty.

ghost use Rattle.std.specs.Prelude.{false, None};

use outer_ports::{ProofName, Shelf, ShelfFault};

/// A shelf that takes all that it is given, keeps none of it, and never fails. It tells no files.
#[derive(Drop)]
pub(crate) struct EmptyShelf;

impl Shelf for EmptyShelf {
    ghost tells = { λ _. false };

    ghost file = { λ _ _. None };

    ghost faults = { λ _. 0 };

    fn begin(&mut self, _: ProofName) -> Result<(), ShelfFault> {
        Ok(())
    }

    fn append(&mut self, _: ProofName, piece: &[u8]) -> Result<usize, ShelfFault> {
        Ok(piece.len())
    }

    fn read_at(&mut self, _: ProofName, _: u64, _: &mut [u8]) -> Result<Option<usize>, ShelfFault> {
        Ok(None)
    }
}
