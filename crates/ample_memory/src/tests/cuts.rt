//! Counting at sets of nodes by the calls that make no table: on the line of 2 one chunk a round
//! comes to the second node.

use collective_spec::{Collective, Kind, Spec, spec_instance};
use node_cuts::{first_cut, floor_of};
use std::test::Fail;
use topology_families::{FamilyKind, family};

const BROADCAST: Collective = Collective {
    kind: Kind::Broadcast,
    root: 0,
};

#[test]
fn counting_is_made_once(rt: HostRuntime) -> Result<(), Fail> {
    let alloc = rt.alloc();
    let line = family(alloc, FamilyKind::Line, 2)?;
    let spec = Spec::Standard(BROADCAST);
    let floor = floor_of(alloc, line.topology(), &spec)?;
    assert_eq!(rt; (floor.above, floor.below), (1, 1));

    let two_chunks = spec_instance(alloc, &spec, 2, 2)?;
    assert!(rt; first_cut(alloc, line.topology(), &two_chunks, 1)?.is_some());
    assert!(rt; first_cut(alloc, line.topology(), &two_chunks, 2)?.is_none());
    Ok(())
}
