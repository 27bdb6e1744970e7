//! A shelf over a folder in memory.

use memory_files::MemoryFiles;
use outer_ports::{Failed, FileKind, FolderShelf, Part, ProofName, Shelf, ShelfFault, write_file};
use std::alloc::Global;
use std::test::Fail;

const NAME: ProofName = ProofName {
    kind: FileKind::Lrat,
    part: Part::Whole,
    s: 1,
    r: 1,
    c: 1,
};

/// Writes a file of a folder, reads its front, and closes what is open: what came of each.
fn written(
    alloc: Global,
    files: MemoryFiles,
    folder: String,
    bytes: &[u8],
) -> (
    MemoryFiles,
    Result<(), ShelfFault>,
    Result<Option<usize>, ShelfFault>,
    Result<(), Failed>,
) {
    let mut shelf = FolderShelf::new(alloc, files, folder);
    let wrote = write_file(&mut shelf, NAME, bytes);
    let mut buf = [0; 2];
    let read = shelf.read_at(NAME, 1, &mut buf);
    let (files, closed) = shelf.close();
    (files, wrote, read, closed)
}

/// Whether the file has these bytes.
fn is_file(files: &MemoryFiles, path: &str, bytes: &[u8]) -> bool {
    match files.file(path) {
        Some(found) => found == bytes,
        None => false,
    }
}

/// A file that has a second name is begun: that keeps what it had.
#[test]
fn a_second_name_keeps_what_it_had(rt: HostRuntime) -> Result<(), Fail> {
    let alloc = rt.alloc();
    let files = MemoryFiles::new(alloc, Vec::new(alloc));
    let folder = String::from_str(alloc, "proofs")?;
    let (mut files, wrote, read, closed) = written(alloc, files, folder, b"before");
    assert_eq!(rt; (wrote, read, closed), (Ok(()), Ok(Some(2)), Ok(())));
    files.link("proofs/1-1-1.lrat", "kept")?;
    let folder = String::from_str(alloc, "proofs")?;
    let (files, wrote, _, closed) = written(alloc, files, folder, b"now");
    assert_eq!(rt; (wrote, closed), (Ok(()), Ok(())));
    assert!(rt; is_file(&files, "proofs/1-1-1.lrat", b"now"));
    assert!(rt; is_file(&files, "kept", b"before"));
    assert!(rt; files.file("proofs/new").is_none());
    Ok(())
}

/// Each call fails in turn, which is told by the call of the shelf that made it.
#[test]
fn each_call_fails_in_turn(rt: HostRuntime) -> Result<(), Fail> {
    let alloc = rt.alloc();
    for number in 0..9 {
        let files = MemoryFiles::new(alloc, vec![in alloc; number]?);
        let folder = String::from_str(alloc, "proofs")?;
        let (_, wrote, read, closed) = written(alloc, files, folder, b"bytes");
        let fails = [wrote.is_err(), read.is_err(), closed.is_err()];
        // A folder, a look, a file, its name and a write; a look, an opening and a reading; two
        // closings.
        let due = match number {
            0..=4 => wrote == Err(ShelfFault::Failed),
            5..=7 => fails == [false, true, false],
            _ => fails == [false, false, true],
        };
        assert!(rt; due, "call {number}");
    }
    Ok(())
}
