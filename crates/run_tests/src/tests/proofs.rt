//! Proofs and logs that others wrote, as a check takes them.

use super::changed;
use super::checks::{PROOF, checks};
use super::reports::RELAY;
use super::search_files::ONE_STEP;
use outer_ports::FileKind;
use std::alloc::AllocError;
use std::process::Abort;
use std::test::Fail;

const PIECES: [usize; 3] = [1, 7, 4096];

/// Checks the relay's report beside its formula and this proof.
fn takes(
    rt: &(impl Abort + AllocGlobal),
    proof: &'static [u8],
    line: &[u8],
) -> Result<(), AllocError> {
    let files = vec![in rt.alloc(); (FileKind::Cnf, ONE_STEP), (FileKind::Lrat, proof)]?;
    for piece in PIECES {
        checks(rt, piece, RELAY, &files, line)?;
    }
    Ok(())
}

#[test]
fn proofs_of_others(rt: HostRuntime) -> Result<(), Fail> {
    // a comment, blanks, a carriage return, no line feed at the end, a deletion, and three lines
    // that are redundant
    let taken: [&[u8]; 8] = [
        b"c made elsewhere\n34 0 2 3 9 16 24 0\n",
        b" 34\t0  2 3 9 16 24 0 \n\n",
        b"34 0 2 3 9 16 24 0\r\n",
        b"34 0 2 3 9 16 24 0",
        b"34 d 1 0\n34 0 2 3 9 16 24 0\n",
        b"34 -18 0 0\n35 0 2 3 9 16 24 0\n",
        b"34 11 0 0\n35 0 2 3 9 16 24 0\n",
        b"34 -17 0 -32 19 3 0\n35 0 2 3 9 16 24 0\n",
    ];
    for proof in taken {
        takes(&rt, proof, b"verified\n")?;
    }
    // no closing zero, a token too many, a group of a line without a literal, a line behind the
    // last, a number that is not greater, deletions of what is needed and of what is not held, and
    // a group that is lacking
    let refused: [&[u8]; 8] = [
        b"34 0 2 3 9 16 24\n",
        b"34 0 2 3 9 16 24 0 0\n",
        b"34 0 2 3 9 16 -24 0\n",
        b"34 0 2 3 9 16 24 0\nx\n",
        b"33 0 2 3 9 16 24 0\n",
        b"34 d 2 0\n34 0 2 3 9 16 24 0\n",
        b"34 d 34 0\n34 0 2 3 9 16 24 0\n",
        b"34 -17 0 0\n35 0 2 3 9 16 24 0\n",
    ];
    for proof in refused {
        takes(&rt, proof, b"refused 8 5 1-1-1\n")?;
    }
    Ok(())
}

/// The words of a report's limit, and the lines of its point's mark and of its unknown candidate.
type Given = (&'static [u8], &'static [u8]);

const ONE: Given = (
    b"conflicts=1 ",
    b"open\nrounds 1 1\nsend 0 n0 n1 1\nsend 0 n1 n2 2\nunknown 1 1 1 1\n",
);

const TWO: Given = (
    b"conflicts=2 ",
    b"open\nrounds 1 1\nsend 0 n0 n1 1\nsend 0 n1 n2 2\nunknown 1 1 1 2\n",
);

#[test]
fn logs(rt: HostRuntime) -> Result<(), Fail> {
    let table: [(Given, &[u8], &[u8]); 9] = [
        (ONE, b"34 -9 0 2 16 0\n", b"verified\n"),
        (TWO, b"34 -9 0 2 16 0\n35 -8 0 2 13 0\n", b"verified\n"),
        (TWO, b"34 -9 0 2 16 0\n35 -10 0 3 19 0\n", b"verified\n"),
        (
            TWO,
            b"34 -9 0 2 16 0\n35 -9 0 34 0\n",
            b"refused 8 7 1-1-1\n",
        ),
        (
            TWO,
            b"34 -9 0 2 16 0\n35 -9 -8 0 2 16 0\n",
            b"refused 8 7 1-1-1\n",
        ),
        (TWO, b"34 -9 0 2 16 0\n", b"refused 8 7 1-1-1\n"),
        (ONE, b"34 d 1 0\n", b"refused 8 7 1-1-1\n"),
        (ONE, b"34 11 0 0\n", b"refused 8 7 1-1-1\n"),
        (ONE, PROOF, b"refused 8 7 1-1-1\n"),
    ];
    let alloc = rt.alloc();
    let old = b"optimal\nrounds 1 1\nsend 0 n0 n1 1\nsend 0 n1 n2 2\nrefuted 1 1 1\n";
    for ((limit, given), log, line) in table {
        let limited = changed(alloc, RELAY, b"conflicts=1000 ", limit)?;
        let report = changed(alloc, &limited, old, given)?;
        let files = vec![in alloc; (FileKind::Partial, log)]?;
        for piece in PIECES {
            checks(&rt, piece, &report, &files, line)?;
        }
    }
    Ok(())
}
