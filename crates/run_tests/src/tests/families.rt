//! Families over ports in memory.

use super::runs;
use sccl_run::Status;
use std::test::Fail;

/// Three rows of three nodes.
const TORUS: &[u8] =
    b"topology 1\nnodes n0 n1 n2 n3 n4 n5 n6 n7 n8\ngroup 1 n0>n1\ngroup 1 n0>n2\ngroup 1 n0>n3\ngroup 1 n0>n6\ngroup 1 n1>n0\ngroup 1 n1>n2\ngroup 1 n1>n4\ngroup 1 n1>n7\ngroup 1 n2>n0\ngroup 1 n2>n1\ngroup 1 n2>n5\ngroup 1 n2>n8\ngroup 1 n3>n0\ngroup 1 n3>n4\ngroup 1 n3>n5\ngroup 1 n3>n6\ngroup 1 n4>n1\ngroup 1 n4>n3\ngroup 1 n4>n5\ngroup 1 n4>n7\ngroup 1 n5>n2\ngroup 1 n5>n3\ngroup 1 n5>n4\ngroup 1 n5>n8\ngroup 1 n6>n0\ngroup 1 n6>n3\ngroup 1 n6>n7\ngroup 1 n6>n8\ngroup 1 n7>n1\ngroup 1 n7>n4\ngroup 1 n7>n6\ngroup 1 n7>n8\ngroup 1 n8>n2\ngroup 1 n8>n5\ngroup 1 n8>n6\ngroup 1 n8>n7\n";

/// Two quads, and links between them.
const MESH: &[u8] =
    b"topology 1\nnodes n0 n1 n2 n3 n4 n5 n6 n7\ngroup 1 n0>n1\ngroup 1 n0>n2\ngroup 2 n0>n3\ngroup 2 n0>n4\ngroup 1 n1>n0\ngroup 2 n1>n2\ngroup 1 n1>n3\ngroup 2 n1>n5\ngroup 1 n2>n0\ngroup 2 n2>n1\ngroup 2 n2>n3\ngroup 1 n2>n6\ngroup 2 n3>n0\ngroup 1 n3>n1\ngroup 2 n3>n2\ngroup 1 n3>n7\ngroup 2 n4>n0\ngroup 1 n4>n5\ngroup 1 n4>n6\ngroup 2 n4>n7\ngroup 2 n5>n1\ngroup 1 n5>n4\ngroup 2 n5>n6\ngroup 1 n5>n7\ngroup 1 n6>n2\ngroup 1 n6>n4\ngroup 2 n6>n5\ngroup 2 n6>n7\ngroup 1 n7>n3\ngroup 2 n7>n4\ngroup 1 n7>n5\ngroup 2 n7>n6\n";

/// A port out and a port in for each of three nodes.
const SWITCH: &[u8] =
    b"topology 1\nnodes n0 n1 n2\ngroup 1 n0>n1 n0>n2\ngroup 1 n1>n0 n1>n2\ngroup 1 n2>n0 n2>n1\ngroup 1 n1>n0 n2>n0\ngroup 1 n0>n1 n2>n1\ngroup 1 n0>n2 n1>n2\n";

/// Two boxes of four nodes, and a cable each way.
const BOXES: &[u8] =
    b"topology 1\nnodes n0 n1 n2 n3 n4 n5 n6 n7\ngroup 1 n0>n1\ngroup 1 n0>n2\ngroup 1 n0>n3\ngroup 1 n1>n0\ngroup 1 n1>n2\ngroup 1 n1>n3\ngroup 1 n2>n0\ngroup 1 n2>n1\ngroup 1 n2>n3\ngroup 1 n3>n0\ngroup 1 n3>n1\ngroup 1 n3>n2\ngroup 1 n4>n5\ngroup 1 n4>n6\ngroup 1 n4>n7\ngroup 1 n5>n4\ngroup 1 n5>n6\ngroup 1 n5>n7\ngroup 1 n6>n4\ngroup 1 n6>n5\ngroup 1 n6>n7\ngroup 1 n7>n4\ngroup 1 n7>n5\ngroup 1 n7>n6\ngroup 1 n0>n4 n0>n5 n0>n6 n0>n7 n1>n4 n1>n5 n1>n6 n1>n7 n2>n4 n2>n5 n2>n6 n2>n7 n3>n4 n3>n5 n3>n6 n3>n7\ngroup 1 n4>n0 n4>n1 n4>n2 n4>n3 n5>n0 n5>n1 n5>n2 n5>n3 n6>n0 n6>n1 n6>n2 n6>n3 n7>n0 n7>n1 n7>n2 n7>n3\n";

#[test]
fn families_are_written(rt: HostRuntime) -> Result<(), Fail> {
    let table: [(&str, &str, &[u8]); 4] = [
        ("kind=torus", "size=9", TORUS),
        ("kind=mesh", "size=8", MESH),
        ("kind=switch", "size=3", SWITCH),
        ("kind=boxes", "size=8", BOXES),
    ];
    for (kind, size, text) in table {
        runs(&rt, &["family", kind, size], b"", Status::Done, text)?;
    }
    Ok(())
}
