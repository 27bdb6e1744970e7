//! Checks of reports, over files in memory.

use super::reports::RELAY;
use super::search_files::{ONE_STEP, first};
use super::{changed, words};
use outer_ports::{FileKind, MemoryShelf, MemorySink, SureSource};
use sccl_run::{Status, run};
use std::alloc::AllocError;
use std::process::Abort;
use std::test::Fail;

/// A refutation of one step.
pub const PROOF: &[u8] = b"34 0 2 3 9 16 24 0\n";

/// A change of a report: its old part, and the new one.
pub type Change = (&'static [u8], &'static [u8]);

/// The files of the candidate of one step.
pub type Files<'a> = &'a [(FileKind, &'static [u8])];

/// Checks a report beside files of the candidate of one step, on a shelf that moves pieces of this
/// size, and compares the line that is written.
pub fn checks(
    rt: &(impl Abort + AllocGlobal),
    piece: usize,
    report: &[u8],
    files: Files,
    line: &[u8],
) -> Result<(), AllocError> {
    let alloc = rt.alloc();
    assert!(rt; piece >= 1);
    let words = words(alloc, &["check"])?;
    let mut source = SureSource::new(Vec::from_slice(alloc, report)?);
    let mut sink = MemorySink::new(alloc, 4096, Vec::new(alloc))?;
    let mut shelf = MemoryShelf::new(alloc, piece, Vec::new(alloc))?;
    for (kind, bytes) in files {
        shelf.set(first(*kind), Vec::from_slice(alloc, bytes)?)?;
    }
    let status = run(alloc, &words, &mut source, &mut sink, &mut shelf);
    let due = if line == b"verified\n".as_slice() {
        Status::Done
    } else {
        Status::Denied
    };
    assert_eq!(rt; status, due);
    assert_eq!(rt; sink.bytes(), line);
    Ok(())
}

/// The formula of one step with another first clause.
const OTHER_FORMULA: &[u8] =
    b"p cnf 18 33\n-1 0\n-3 0\n-5 0\n-1 2 0\n-3 4 0\n-5 6 0\n2 0\n4 0\n6 0\n-7 1 0\n-7 -3 0\n-7 4 0\n-8 3 0\n-8 -1 0\n-8 2 0\n-9 3 0\n-9 -5 0\n-9 6 0\n-10 5 0\n-10 -3 0\n-10 4 0\n1 -2 8 0\n3 -4 7 10 0\n5 -6 9 0\n-7 -10 0\n-7 11 0\n-12 0\n-8 13 0\n-14 0\n-9 15 0\n-16 0\n-10 17 0\n-18 0\n";

/// The formula and the refutation.
pub const BOTH: Files = &[(FileKind::Cnf, ONE_STEP), (FileKind::Lrat, PROOF)];

/// The candidate of one step is unknown, and so the point is open.
pub const UNKNOWN: Change = (
    b"optimal\nrounds 1 1\nsend 0 n0 n1 1\nsend 0 n1 n2 2\nrefuted 1 1 1\n",
    b"open\nrounds 1 1\nsend 0 n0 n1 1\nsend 0 n1 n2 2\nunknown 1 1 1 1000\n",
);

#[test]
fn verdicts(rt: HostRuntime) -> Result<(), Fail> {
    let table: [(Change, Files, &[u8]); 10] = [
        ((b"", b""), BOTH, b"verified\n"),
        (
            (b"", b""),
            &[
                (FileKind::Cnf, ONE_STEP),
                (FileKind::Lrat, b"34 0 2 3 16 24 0\n"),
            ],
            b"refused 8 5 1-1-1\n",
        ),
        (
            (b"", b""),
            &[(FileKind::Cnf, ONE_STEP), (FileKind::Lrat, b"")],
            b"refused 8 5 1-1-1\n",
        ),
        (
            (b"", b""),
            &[(FileKind::Cnf, ONE_STEP)],
            b"refused 8 4 1-1-1\n",
        ),
        (
            (b"", b""),
            &[(FileKind::Cnf, OTHER_FORMULA), (FileKind::Lrat, PROOF)],
            b"refused 8 6 1-1-1\n",
        ),
        ((b"optimal", b"open"), BOTH, b"refused 8 2 2-2-1\n"),
        ((b"refuted 1 1 1\n", b""), BOTH, b"refused 8 3 1-1-1\n"),
        ((b"0 n1 n2 2", b"0 n0 n2 2"), BOTH, b"refused 8 1 2-2-1\n"),
        (UNKNOWN, BOTH, b"refused 8 4 1-1-1\n"),
        (
            UNKNOWN,
            &[(FileKind::Cnf, ONE_STEP), (FileKind::Partial, PROOF)],
            b"refused 8 7 1-1-1\n",
        ),
    ];
    for ((old, new), files, line) in table {
        let report = changed(rt.alloc(), RELAY, old, new)?;
        for piece in [1, 7, 4096] {
            checks(&rt, piece, &report, files, line)?;
        }
    }
    Ok(())
}
