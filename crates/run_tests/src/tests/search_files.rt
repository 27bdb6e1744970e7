//! The files of a search.

use super::searches::LINE;
use super::words;
use outer_ports::{FileKind, MemoryShelf, MemorySink, Part, ProofName, SureSource};
use sccl_run::{Status, run};
use std::test::Fail;

/// The formula of a broadcast over three nodes in a row in one step and one round.
pub const ONE_STEP: &[u8] =
    b"p cnf 18 33\n1 0\n-3 0\n-5 0\n-1 2 0\n-3 4 0\n-5 6 0\n2 0\n4 0\n6 0\n-7 1 0\n-7 -3 0\n-7 4 0\n-8 3 0\n-8 -1 0\n-8 2 0\n-9 3 0\n-9 -5 0\n-9 6 0\n-10 5 0\n-10 -3 0\n-10 4 0\n1 -2 8 0\n3 -4 7 10 0\n5 -6 9 0\n-7 -10 0\n-7 11 0\n-12 0\n-8 13 0\n-14 0\n-9 15 0\n-16 0\n-10 17 0\n-18 0\n";

/// A file of the candidate of one step, one round and one chunk.
pub fn first(kind: FileKind) -> ProofName {
    ProofName {
        kind,
        part: Part::Whole,
        s: 1,
        r: 1,
        c: 1,
    }
}

#[test]
fn files_of_a_search(rt: HostRuntime) -> Result<(), Fail> {
    let alloc = rt.alloc();
    let all = [
        "synth",
        "collective=broadcast",
        "k=0",
        "steps=2",
        "chunks=1",
        "conflicts=1000",
    ];
    let words = words(alloc, &all)?;
    let mut source = SureSource::new(Vec::from_slice(alloc, LINE)?);
    let mut sink = MemorySink::new(alloc, 4096, Vec::new(alloc))?;
    let mut shelf = MemoryShelf::new(alloc, 7, Vec::new(alloc))?;
    let status = run(alloc, &words, &mut source, &mut sink, &mut shelf);
    assert_eq!(&rt; status, Status::Done);
    assert!(&rt; shelf.file(first(FileKind::Cnf)) == Some(ONE_STEP));
    assert!(&rt; shelf.file(first(FileKind::Partial)) == Some(b"".as_slice()));
    let proof = shelf.file(first(FileKind::Lrat));
    assert!(&rt; proof.is_some_and(|bytes| bytes.ends_with(b" 0\n")));
    Ok(())
}
