//! Runs of each command over ports that fail at any of their calls.

use super::checks::{BOTH, Files};
use super::pruned::PRUNED;
use super::reports::{ALLREDUCE, RELAY, REPLAY, REPORT};
use super::search_files::first;
use super::searches::{LINE, PAIR, PAIR_REPORT, PAIR_WORDS};
use super::words;
use outer_ports::{MemoryShelf, MemorySink, MemorySource};
use sccl_run::{Status, run};
use std::alloc::AllocError;
use std::process::Abort;
use std::test::Fail;

/// What the first trial prints.
const TRIAL_0: &[u8] =
    b"trial 0\nsynth collective=broadcast k=0 steps=1 chunks=1 conflicts=2000 root=n0\nfamily line 3\npoints 0 refuted 1 unknown 0 joined 0\ncheck verified\nreplays 0 events 0\nend\n";

/// What a search by ordered schedules prints for two chunks along the line of three nodes.
const IN_ORDER: &[u8] =
    b"ordered 1\nsynth collective=broadcast k=0 steps=3 chunks=2 conflicts=1000 root=n0\nfrontier whole\npoint 2 2 1 optimal\nrounds 1 1\nsend 0 n0 n1 1\nsend 0 n1 n2 2\npoint 3 3 2 optimal\nrounds 1 1 1\nsend 0 n0 n1 1\nsend 0 n1 n2 2\nsend 1 n0 n1 2\nsend 1 n1 n2 3\nrefuted 1 1 2\nrefuted 1 1 1\nrefuted 2 2 2\nend\n";
/// What is said of the relay where its first link is gone.
const RELAY_CUT: &[u8] =
    b"degraded 1\nsynth collective=broadcast k=0 steps=2 chunks=1 conflicts=1000 root=n0\ntopology 1\nnodes n0 n1 n2\ngroup 1 n1>n0\ngroup 1 n1>n2\ngroup 1 n2>n1\nfrontier whole\ncarried 1 1 1\nrefuted 2 2 1\nend\n";

const NEVER: u64 = u64::MAX;

/// A run over ports that never fail.
#[derive(Clone, Copy)]
pub struct Run<'a> {
    pub words: &'a [&'a str],
    /// What the source gives, where it is read.
    pub given: Option<&'a [u8]>,
    /// The files that stand on the shelf.
    pub files: Files<'a>,
    /// How often the shelf is called, where at most 1 byte, 7 and 4,096 bytes are moved at a call.
    pub shelved: [u64; 3],
    pub status: Status,
    pub text: &'a [u8],
}

/// Runs it where one call of the source, of the shelf and of the sink fails, by their numbers, in
/// pieces of this size, and compares the status and what is written.
fn ends(
    rt: &(impl Abort + AllocGlobal),
    it: Run,
    piece: usize,
    [read, shelved, written]: [u64; 3],
    status: Status,
    text: &[u8],
) -> Result<(), AllocError> {
    let alloc = rt.alloc();
    assert!(rt; piece >= 1);
    let words = words(alloc, it.words)?;
    let given = Vec::from_slice(alloc, it.given.unwrap_or(b""))?;
    let mut source = MemorySource::new(given, piece, vec![in alloc; read]?);
    let mut sink = MemorySink::new(alloc, piece, vec![in alloc; written]?)?;
    let mut shelf = MemoryShelf::new(alloc, piece, vec![in alloc; shelved]?)?;
    for (kind, bytes) in it.files {
        shelf.set(first(*kind), Vec::from_slice(alloc, bytes)?)?;
    }
    let ended = run(alloc, &words, &mut source, &mut sink, &mut shelf);
    assert_eq!(rt;
        ended,
        status,
        "piece {piece}, calls {read} {shelved} {written}"
    );
    assert_eq!(rt; sink.bytes(), text);
    Ok(())
}

/// Runs it with each call of each port failing in turn, and with those that come behind the last
/// ones.
pub fn fails_at_each_call(rt: &(impl Abort + AllocGlobal), it: Run) -> Result<(), AllocError> {
    let [small, middle, whole] = it.shelved;
    for (piece, shelved) in [(1, small), (7, middle), (4096, whole)] {
        // the reading that meets the end is one more
        let reads = match it.given {
            None => 0,
            Some(given) => given.len().div_ceil(piece) as u64 + 1,
        };
        for call in 0..reads {
            let calls = [call, NEVER, NEVER];
            ends(rt, it, piece, calls, Status::SourceFailed, b"")?;
        }
        for call in 0..shelved {
            let calls = [NEVER, call, NEVER];
            ends(rt, it, piece, calls, Status::ShelfFailed, b"")?;
        }
        let writes = it.text.len().div_ceil(piece);
        for call in 0..writes {
            let calls = [NEVER, NEVER, call as u64];
            let start = call.saturating_mul(piece).min(it.text.len());
            ends(rt, it, piece, calls, Status::SinkFailed, &it.text[..start])?;
        }
        let last = [reads, shelved, writes as u64];
        ends(rt, it, piece, last, it.status, it.text)?;
    }
    Ok(())
}

#[test]
fn ports_that_fail(rt: HostRuntime) -> Result<(), Fail> {
    let table: [Run; 16] = [
        Run {
            words: &PAIR_WORDS,
            given: Some(PAIR),
            files: &[],
            shelved: [133, 22, 4],
            status: Status::Done,
            text: PAIR_REPORT,
        },
        Run {
            words: &[
                "synth",
                "collective=broadcast",
                "k=0",
                "steps=2",
                "chunks=1",
                "conflicts=1000",
            ],
            given: Some(LINE),
            files: &[],
            shelved: [757, 115, 9],
            status: Status::Done,
            text: RELAY,
        },
        Run {
            words: &[
                "synth",
                "collective=allreduce",
                "k=0",
                "steps=1",
                "chunks=1",
                "conflicts=1000",
            ],
            given: Some(PAIR),
            files: &[],
            shelved: [570, 88, 8],
            status: Status::Done,
            text: ALLREDUCE,
        },
        Run {
            words: &[
                "bound",
                "collective=broadcast",
                "k=0",
                "steps=2",
                "chunks=1",
                "conflicts=1000",
            ],
            given: Some(LINE),
            files: &[],
            shelved: [757, 115, 9],
            status: Status::Done,
            text: b"bound 1\nsynth collective=broadcast k=0 steps=2 chunks=1 conflicts=1000 root=n0\nfloor 1 1 n2\nfrontier whole\npoint 2 2 1 optimal\nrounds 1 1\nsend 0 n0 n1 1\nsend 0 n1 n2 2\nrefuted 1 1 1\nend\n",
        },
        // a cut refutes each candidate, and the shelf is not called
        Run {
            words: &[
                "bound",
                "collective=broadcast",
                "k=0",
                "steps=2",
                "chunks=1",
                "conflicts=1000",
            ],
            given: Some(b"topology 1\nnodes a b\ngroup 1 b>a\n"),
            files: &[],
            shelved: [0; 3],
            status: Status::Done,
            text: b"bound 1\nsynth collective=broadcast k=0 steps=2 chunks=1 conflicts=1000 root=a\nfloor 1 0 b\nfrontier whole\ncut 1 1 1 b\ncut 2 2 1 b\nend\n",
        },
        Run {
            words: &["check"],
            given: Some(RELAY),
            files: BOTH,
            shelved: [267, 41, 4],
            status: Status::Done,
            text: b"verified\n",
        },
        Run {
            words: &["degrade", "group=0", "width=0"],
            given: Some(RELAY),
            files: BOTH,
            shelved: [267, 41, 4],
            status: Status::Done,
            text: RELAY_CUT,
        },
        // there is no such group
        Run {
            words: &["degrade", "group=4", "width=0"],
            given: Some(RELAY),
            files: BOTH,
            shelved: [0; 3],
            status: Status::BadWords,
            text: b"refused 2 14 1\n",
        },
        Run {
            words: &["replay", "point=1"],
            given: Some(REPORT),
            files: &[],
            shelved: [0; 3],
            status: Status::Done,
            text: REPLAY,
        },
        Run {
            words: &["replay", "point=1", "order=0"],
            given: Some(REPORT),
            files: &[],
            shelved: [0; 3],
            status: Status::Done,
            text: b"replay 1\nstep 0\nn0 0\nn1\nstep 1\nn0 0\nn1 0\nholds\norder 0\nevents 2\nmoves n0 n1\nn0 0\nn1 0\nend\n",
        },
        Run {
            words: &["programs", "point=1"],
            given: Some(RELAY),
            files: &[],
            shelved: [0; 3],
            status: Status::Done,
            text: b"programs 1\nnode n0\n1 send 0 n1\nnode n1\n1 take 0 n0 copy\n2 send 0 n2\nnode n2\n2 take 0 n1 copy\nend\n",
        },
        Run {
            words: &["family", "kind=line", "size=2"],
            given: None,
            files: &[],
            shelved: [0; 3],
            status: Status::Done,
            text: PAIR,
        },
        Run {
            words: &["trial", "n=0"],
            given: None,
            files: &[],
            shelved: [0; 3],
            status: Status::Done,
            text: TRIAL_0,
        },
        Run {
            words: &[
                "ordered",
                "collective=broadcast",
                "k=0",
                "steps=3",
                "chunks=2",
                "conflicts=1000",
            ],
            given: Some(LINE),
            files: &[],
            shelved: [0; 3],
            status: Status::Done,
            text: IN_ORDER,
        },
        // the text is no topology
        Run {
            words: &[
                "ordered",
                "collective=broadcast",
                "k=0",
                "steps=3",
                "chunks=2",
                "conflicts=1000",
            ],
            given: Some(REPORT),
            files: &[],
            shelved: [0; 3],
            status: Status::BadTopology,
            text: b"refused 3 1 1\n",
        },
        // there is no such point
        Run {
            words: &["replay", "point=2"],
            given: Some(REPORT),
            files: &[],
            shelved: [0; 3],
            status: Status::BadWords,
            text: b"refused 2 9 1\n",
        },
    ];
    for it in table {
        fails_at_each_call(&rt, it)?;
    }
    Ok(())
}

#[test]
fn ports_that_fail_under_the_keys(rt: HostRuntime) -> Result<(), Fail> {
    let table: [Run; 2] = [
        // the files of the one refuted candidate are kept, and read alone
        Run {
            words: &[
                "synth",
                "collective=broadcast",
                "k=0",
                "steps=2",
                "chunks=1",
                "conflicts=1000",
                "kept=yes",
            ],
            given: Some(LINE),
            files: BOTH,
            shelved: [758, 116, 10],
            status: Status::Done,
            text: RELAY,
        },
        // a set of nodes refutes two chunks in one round, and no file of theirs is made
        Run {
            words: &[
                "synth",
                "collective=broadcast",
                "k=0",
                "steps=1",
                "chunks=2",
                "conflicts=1000",
                "cuts=yes",
                "ordered=yes",
            ],
            given: Some(PAIR),
            files: &[],
            shelved: [133, 22, 4],
            status: Status::Done,
            text: PRUNED,
        },
    ];
    for it in table {
        fails_at_each_call(&rt, it)?;
    }
    Ok(())
}
