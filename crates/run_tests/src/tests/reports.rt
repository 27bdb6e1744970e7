//! Reports whose points are known.

/// A broadcast on two nodes.
pub const REPORT: &[u8] =
    b"sccl 1\nsynth collective=broadcast k=0 steps=1 chunks=1 conflicts=1000 root=n0\ntopology 1\nnodes n0 n1\ngroup 1 n0>n1\ngroup 1 n1>n0\nfrontier whole\npoint 1 1 1 optimal\nrounds 1\nsend 0 n0 n1 1\nend\n";

/// Its replay.
pub const REPLAY: &[u8] = b"replay 1\nstep 0\nn0 0\nn1\nstep 1\nn0 0\nn1 0\nholds\nend\n";

/// A broadcast along the line of three nodes, with what was refuted.
pub const RELAY: &[u8] =
    b"sccl 1\nsynth collective=broadcast k=0 steps=2 chunks=1 conflicts=1000 root=n0\ntopology 1\nnodes n0 n1 n2\ngroup 1 n0>n1\ngroup 1 n1>n0\ngroup 1 n1>n2\ngroup 1 n2>n1\nfrontier whole\npoint 2 2 1 optimal\nrounds 1 1\nsend 0 n0 n1 1\nsend 0 n1 n2 2\nrefuted 1 1 1\nend\n";

/// An allreduce on two nodes.
pub const ALLREDUCE: &[u8] =
    b"sccl 1\nsynth collective=allreduce k=0 steps=1 chunks=1 conflicts=1000\ntopology 1\nnodes n0 n1\ngroup 1 n0>n1\ngroup 1 n1>n0\nfrontier reduce\npoint 1 1 1 optimal\nrounds 1\nsend 0 n1 n0 1\nsend 1 n0 n1 1\nfrontier gather\npoint 1 1 1 optimal\nrounds 1\nsend 0 n0 n1 1\nsend 1 n1 n0 1\njoined\npoint 2 2 1 joined 1\nrounds 1 1\nsend 0 n1 n0 1\nsend 1 n0 n1 1\nsend 0 n0 n1 2\nsend 1 n1 n0 2\nend\n";
