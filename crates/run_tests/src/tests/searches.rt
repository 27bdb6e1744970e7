//! Searches over ports in memory, on small topologies whose frontiers are known.

use super::reports::ALLREDUCE;
use super::runs;
use sccl_run::Status;
use std::test::Fail;

/// Two nodes in a row.
pub const PAIR: &[u8] = b"topology 1\nnodes n0 n1\ngroup 1 n0>n1\ngroup 1 n1>n0\n";

/// Three nodes in a row.
pub const LINE: &[u8] =
    b"topology 1\nnodes n0 n1 n2\ngroup 1 n0>n1\ngroup 1 n1>n0\ngroup 1 n1>n2\ngroup 1 n2>n1\n";

/// One chunk is to go from the first of three nodes to the last.
const MOVED: &[u8] =
    b"topology 2\nnodes a b c\ngroup 1 a>b\ngroup 1 b>c\ncustom 1\nbefore 0 a\nafter 0 c\n";

/// The report of a broadcast over two nodes.
pub const PAIR_REPORT: &[u8] =
    b"sccl 1\nsynth collective=broadcast k=0 steps=1 chunks=1 conflicts=1000 root=n0\ntopology 1\nnodes n0 n1\ngroup 1 n0>n1\ngroup 1 n1>n0\nfrontier whole\npoint 1 1 1 optimal\nrounds 1\nsend 0 n0 n1 1\nend\n";

/// What a broadcast over two nodes is asked for.
pub const PAIR_WORDS: [&str; 6] = [
    "synth",
    "collective=broadcast",
    "k=0",
    "steps=1",
    "chunks=1",
    "conflicts=1000",
];

#[test]
fn whole_reports(rt: HostRuntime) -> Result<(), Fail> {
    let table: [(&[&str], &[u8], &[u8]); 8] = [
        (&PAIR_WORDS, PAIR, PAIR_REPORT),
        (
            &[
                "synth",
                "collective=broadcast",
                "k=0",
                "steps=2",
                "chunks=1",
                "conflicts=1000",
            ],
            LINE,
            b"sccl 1\nsynth collective=broadcast k=0 steps=2 chunks=1 conflicts=1000 root=n0\ntopology 1\nnodes n0 n1 n2\ngroup 1 n0>n1\ngroup 1 n1>n0\ngroup 1 n1>n2\ngroup 1 n2>n1\nfrontier whole\npoint 2 2 1 optimal\nrounds 1 1\nsend 0 n0 n1 1\nsend 0 n1 n2 2\nrefuted 1 1 1\nend\n",
        ),
        // unit propagation settles both candidates
        (
            &[
                "synth",
                "collective=broadcast",
                "k=0",
                "steps=2",
                "chunks=1",
                "conflicts=1",
            ],
            LINE,
            b"sccl 1\nsynth collective=broadcast k=0 steps=2 chunks=1 conflicts=1 root=n0\ntopology 1\nnodes n0 n1 n2\ngroup 1 n0>n1\ngroup 1 n1>n0\ngroup 1 n1>n2\ngroup 1 n2>n1\nfrontier whole\npoint 2 2 1 optimal\nrounds 1 1\nsend 0 n0 n1 1\nsend 0 n1 n2 2\nrefuted 1 1 1\nend\n",
        ),
        (
            &[
                "synth",
                "collective=broadcast",
                "k=0",
                "steps=1",
                "chunks=1",
                "conflicts=1000",
                "root=n1",
            ],
            PAIR,
            b"sccl 1\nsynth collective=broadcast k=0 steps=1 chunks=1 conflicts=1000 root=n1\ntopology 1\nnodes n0 n1\ngroup 1 n0>n1\ngroup 1 n1>n0\nfrontier whole\npoint 1 1 1 optimal\nrounds 1\nsend 0 n1 n0 1\nend\n",
        ),
        (
            &[
                "synth",
                "collective=alltoall",
                "k=0",
                "steps=1",
                "chunks=2",
                "conflicts=1000",
            ],
            PAIR,
            b"sccl 1\nsynth collective=alltoall k=0 steps=1 chunks=2 conflicts=1000\ntopology 1\nnodes n0 n1\ngroup 1 n0>n1\ngroup 1 n1>n0\nfrontier whole\npoint 1 1 2 optimal\nrounds 1\nsend 1 n1 n0 1\nsend 2 n0 n1 1\nend\n",
        ),
        (
            &[
                "synth",
                "collective=allreduce",
                "k=0",
                "steps=1",
                "chunks=1",
                "conflicts=1000",
            ],
            PAIR,
            ALLREDUCE,
        ),
        (
            &[
                "synth",
                "collective=custom",
                "k=0",
                "steps=2",
                "chunks=1",
                "conflicts=1000",
            ],
            MOVED,
            b"sccl 2\nsynth collective=custom k=0 steps=2 chunks=1 conflicts=1000\ntopology 2\nnodes a b c\ngroup 1 a>b\ngroup 1 b>c\ncustom 1\nbefore 0 a\nafter 0 c\nfrontier whole\npoint 2 2 1 optimal\nrounds 1 1\nsend 0 a b 1\nsend 0 b c 2\nrefuted 1 1 1\nend\n",
        ),
        (
            &[
                "synth",
                "collective=allgather",
                "k=0",
                "steps=1",
                "chunks=2",
                "conflicts=1000",
            ],
            b"topology 1\nnodes a\n",
            b"sccl 1\nsynth collective=allgather k=0 steps=1 chunks=2 conflicts=1000\ntopology 1\nnodes a\nfrontier whole\npoint 1 1 2 optimal\nrounds 1\nend\n",
        ),
    ];
    for (all, topology, report) in table {
        runs(&rt, all, topology, Status::Done, report)?;
    }
    Ok(())
}
