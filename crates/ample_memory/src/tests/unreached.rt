//! Public calls that can answer out of memory and that no command makes.

use cnf_formula::{Deletion, Lit};
use lrat_text::print_deletion;
use outer_ports::{Sink, SureSink};
use schedule::{Hop, Placement, Schedule, is_tight};
use std::test::Fail;
use trail_core::Core;

const FORTH: Hop = Hop {
    chunk: 0,
    from: 0,
    to: 1,
    step: 1,
};

#[test]
fn each_call_is_made_once(rt: HostRuntime) -> Result<(), Fail> {
    let alloc = rt.alloc();
    let mut text = Vec::new(alloc);
    let deletion = Deletion {
        id: 7,
        ids: vec![in alloc; 3, 5]?,
    };
    print_deletion(&mut text, &deletion)?;
    assert_eq!(rt; text.as_slice(), b"7 d 3 5 0\n".as_slice());

    let mut sink = SureSink::new(alloc)?;
    assert_eq!(rt; sink.write(b"four"), Ok(4));
    assert_eq!(rt; sink.bytes(), b"four".as_slice());

    let mut pre = Placement::empty(alloc, 1, 2)?;
    pre.insert(0, 0);
    let schedule = Schedule::new(vec![in alloc; 1]?, vec![in alloc; FORTH]?);
    assert!(rt; is_tight(alloc, &pre, &schedule)?);
    Ok(())
}

#[test]
fn a_core_takes_a_clause(rt: HostRuntime) -> Result<(), Fail> {
    let mut core = Core::new(rt.alloc(), 2)?;
    let lits = [Lit::new(1, true), Lit::new(2, false)];
    let id = core.add_clause(&lits)?;
    assert_eq!(rt; id.number(), 0);
    assert_eq!(rt; core.count(), 1);
    Ok(())
}
