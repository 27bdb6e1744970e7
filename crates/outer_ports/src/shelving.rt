//! Writing whole files of a shelf.

ghost use Rattle.std.specs.Prelude.{◌≡◌, ℕ, ◌<◌, ◌⊎◌, List, ◌++◌, Some, length, take, IsTrue, OnErr, OnOk};
ghost use Rattle.outer_ports.specs.{Port.{HasCause, Tells}, Shelf.OthersStay};

use crate::proof_name::ProofName;
use crate::shelf::Shelf;
use crate::shelf_fault::ShelfFault;

/// Appends all of `bytes` to a file that is there, and changes no other. Each call of the shelf is
/// handed all the bytes that are left.
///
/// After a fault a part of `bytes` was appended, from its front and not the whole.
/// [`ShelfFault::Failed`] comes only where the shelf's count of faults rose in this call, or stands
/// at its last value; each other answer leaves the count as it was.
#[tactic(auto, using(crate::proofs::Pieces::appended_to_file))]
pub fn append_all<H: Shelf>(shelf: &mut H, name: ProofName, bytes: &[u8]) -> Result<(), ShelfFault>
    ensures told { Tells (H.tells shelf.old) (H.tells shelf.new) }
    ensures whole { IsTrue (H.tells shelf.new) → (before : List ℕ) → H.file shelf.old name ≡ Some before →
        OnOk result (H.file shelf.new name ≡ Some (before ++ bytes.now)) }
    ensures prefix { IsTrue (H.tells shelf.new) → (before : List ℕ) → H.file shelf.old name ≡ Some before →
        OnErr result ((k : ℕ) × (k < length bytes.now)
        × (H.file shelf.new name ≡ Some (before ++ take k bytes.now))) }
    ensures others { IsTrue (H.tells shelf.new) → OthersStay name (H.file shelf.old) (H.file shelf.new) }
    ensures cause { HasCause ShelfFault.Failed (H.faults shelf.old) (H.faults shelf.new) result }
{
    let mut done = 0;
    while done < bytes.len() {
        done += shelf.append(name, &bytes[done..])?;
    }
    Ok(())
}

/// Makes the file, or empties it, and writes all of `bytes` to it, and changes no other.
///
/// After a fault the file is as before, or a part of `bytes` stands in it, from its front and not
/// the whole. [`ShelfFault::Failed`] comes only where the shelf's count of faults rose in this
/// call, or stands at its last value; each other answer leaves the count as it was.
pub fn write_file<H: Shelf>(shelf: &mut H, name: ProofName, bytes: &[u8]) -> Result<(), ShelfFault>
    ensures told { Tells (H.tells shelf.old) (H.tells shelf.new) }
    ensures whole { IsTrue (H.tells shelf.new) → OnOk result (H.file shelf.new name ≡ Some bytes.now) }
    ensures prefix { IsTrue (H.tells shelf.new) →
        OnErr result ((H.file shelf.new name ≡ H.file shelf.old name)
        ⊎ ((k : ℕ) × (k < length bytes.now) × (H.file shelf.new name ≡ Some (take k bytes.now)))) }
    ensures others { IsTrue (H.tells shelf.new) → OthersStay name (H.file shelf.old) (H.file shelf.new) }
    ensures cause { HasCause ShelfFault.Failed (H.faults shelf.old) (H.faults shelf.new) result }
{
    shelf.begin(name)?;
    append_all(shelf, name, bytes)
}
