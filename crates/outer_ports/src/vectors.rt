//! What the definitions give on small names.
#![tactic(auto, unfolding(crate::specs::inner::Vectors::digits))]

ghost use Rattle.std.specs.Prelude.{◌≡◌, codes};
ghost use Rattle.outer_ports.specs.Files.{candidate_word, file_word};

use crate::part::Part;
use crate::proof_name::{FileKind, ProofName};

/// Names of files, of each part and of each kind of file, and of a joined candidate.
pub fn file_words()
    ensures formula { file_word (record { kind = FileKind.Cnf; part = Part.Whole; s = 1; r = 1; c = 1 }) ≡ codes "1-1-1.cnf" }
    ensures proof { file_word (record { kind = FileKind.Lrat; part = Part.Reduce; s = 2; r = 3; c = 16 }) ≡ codes "reduce-2-3-16.lrat" }
    ensures log { file_word (record { kind = FileKind.Partial; part = Part.Gather; s = 8; r = 16; c = 4 }) ≡ codes "gather-8-16-4.partial" }
    ensures joined { candidate_word Part.Joined 2 2 1 ≡ codes "joined-2-2-1" }
{}
