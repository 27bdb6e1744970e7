//! How the files of a candidate are named.

ghost use Rattle.std.specs.Prelude.{◌≡◌};
ghost use Rattle.candidate_formula.specs.Files.{file_of};

use candidate_order::Candidate;
use outer_ports::{FileKind, Part, ProofName};

/// The name of a candidate's file of this kind, where the candidate was tried for this part.
pub fn file_name(kind: FileKind, part: Part, candidate: Candidate) -> ProofName
    ensures { result ≡ file_of kind part candidate }
{
    ProofName {
        kind,
        part,
        s: candidate.s,
        r: candidate.r,
        c: candidate.c,
    }
}
