//! Searches that leave out what a set of nodes refutes, or ask for the order of chunks, and searches
//! that keep proofs.

use super::reports::RELAY;
use super::search_files::{ONE_STEP, first};
use super::searches::{LINE, PAIR};
use super::{runs, words};
use outer_ports::{FileKind, MemoryShelf, MemorySink, SureSource};
use sccl_run::{Status, run};
use std::alloc::AllocError;
use std::process::Abort;
use std::test::Fail;

/// Two chunks in one round are more than the one link brings.
pub const PRUNED: &[u8] =
    b"sccl 1\nsynth collective=broadcast k=0 steps=1 chunks=2 conflicts=1000 root=n0 cuts=yes ordered=yes\ntopology 1\nnodes n0 n1\ngroup 1 n0>n1\ngroup 1 n1>n0\nfrontier whole\npoint 1 1 1 optimal\nrounds 1\nsend 0 n0 n1 1\nrefuted 1 1 2\nend\n";

/// The same without these words.
const UNPRUNED: &[u8] =
    b"sccl 1\nsynth collective=broadcast k=0 steps=1 chunks=2 conflicts=1000 root=n0\ntopology 1\nnodes n0 n1\ngroup 1 n0>n1\ngroup 1 n1>n0\nfrontier whole\npoint 1 1 1 optimal\nrounds 1\nsend 0 n0 n1 1\nrefuted 1 1 2\nend\n";

/// Nothing comes to the first two of these nodes from the others, nor to the third.
const APART: &[u8] = b"topology 1\nnodes a b c d\ngroup 1 a>b\ngroup 1 b>a\n";

/// A proof that somebody else made.
const OTHERS: &[u8] = b"c made elsewhere\n34 0 2 3 9 16 24 0\n";

#[test]
fn what_is_left_out(rt: HostRuntime) -> Result<(), Fail> {
    let table: [(&[&str], &[u8], Status, &[u8]); 5] = [
        (
            &[
                "synth",
                "collective=broadcast",
                "k=0",
                "steps=1",
                "chunks=2",
                "conflicts=1000",
                "ordered=yes",
                "cuts=yes",
            ],
            PAIR,
            Status::Done,
            PRUNED,
        ),
        // no file is owed of what a set of nodes refutes
        (&["check"], PRUNED, Status::Done, b"verified\n"),
        (&["check"], UNPRUNED, Status::Denied, b"refused 8 4 1-1-2\n"),
        (
            &[
                "bound",
                "collective=broadcast",
                "k=0",
                "steps=1",
                "chunks=1",
                "conflicts=1000",
                "root=d",
            ],
            APART,
            Status::Done,
            b"bound 1\nsynth collective=broadcast k=0 steps=1 chunks=1 conflicts=1000 root=d\nfloor 1 0 c\nfrontier whole\ncut 1 1 1 c\nend\n",
        ),
        (
            &[
                "bound",
                "collective=broadcast",
                "k=0",
                "steps=1",
                "chunks=1",
                "conflicts=1000",
                "root=d",
                "sets=all",
            ],
            APART,
            Status::Done,
            b"bound 1\nsynth collective=broadcast k=0 steps=1 chunks=1 conflicts=1000 root=d\nfloor 1 0 a b\nfrontier whole\ncut 1 1 1 a b\nend\n",
        ),
    ];
    for (all, given, status, text) in table {
        runs(&rt, all, given, status, text)?;
    }
    Ok(())
}

/// Searches along the line of three nodes beside a formula and another's proof of one step, with
/// this word more, and tells whether that proof stands there still.
fn stands(
    rt: &(impl Abort + AllocGlobal),
    formula: &[u8],
    more: Option<&str>,
) -> Result<bool, AllocError> {
    let alloc = rt.alloc();
    let mut words = words(
        alloc,
        &[
            "synth",
            "collective=broadcast",
            "k=0",
            "steps=2",
            "chunks=1",
            "conflicts=1000",
        ],
    )?;
    if let Some(word) = more {
        words.push(String::from_str(alloc, word)?)?;
    }
    let mut source = SureSource::new(Vec::from_slice(alloc, LINE)?);
    let mut sink = MemorySink::new(alloc, 4096, Vec::new(alloc))?;
    let mut shelf = MemoryShelf::new(alloc, 7, Vec::new(alloc))?;
    shelf.set(first(FileKind::Cnf), Vec::from_slice(alloc, formula)?)?;
    shelf.set(first(FileKind::Lrat), Vec::from_slice(alloc, OTHERS)?)?;
    let status = run(alloc, &words, &mut source, &mut sink, &mut shelf);
    assert_eq!(rt; status, Status::Done);
    assert_eq!(rt; sink.bytes(), RELAY);
    assert!(rt; shelf.file(first(FileKind::Cnf)) == Some(ONE_STEP));
    assert!(rt; shelf.file(first(FileKind::Partial)) == Some(b"".as_slice()));
    Ok(shelf.file(first(FileKind::Lrat)) == Some(OTHERS))
}

/// A proof is kept where it is asked for, and refutes the formula that stands there.
#[test]
fn what_is_kept(rt: HostRuntime) -> Result<(), Fail> {
    let kept = Some("kept=yes");
    assert!(rt; stands(&rt, ONE_STEP, kept)?);
    assert!(rt; !stands(&rt, ONE_STEP, None)?);
    assert!(rt; !stands(&rt, b"p cnf 18 33\n", kept)?);
    Ok(())
}
