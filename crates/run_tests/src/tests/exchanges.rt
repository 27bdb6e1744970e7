//! Topologies, reports and programs as JSON, and back.

use super::ports::{Run, fails_at_each_call};
use super::reports::REPORT;
use super::searches::PAIR;
use sccl_run::Status;
use std::test::Fail;

const PAIR_JSON: &[u8] =
    b"{\"groups\":[{\"links\":[[\"n0\",\"n1\"]],\"width\":1},{\"links\":[[\"n1\",\"n0\"]],\"width\":1}],\"nodes\":[\"n0\",\"n1\"],\"version\":1}\n";

const REPORT_JSON: &[u8] =
    b"{\"frontiers\":[{\"part\":\"whole\",\"points\":[{\"c\":1,\"mark\":\"optimal\",\"r\":1,\"rounds\":[1],\"s\":1,\"sends\":[[0,\"n0\",\"n1\",1]]}],\"refuted\":[],\"unknown\":[]}],\"joined\":[],\"topology\":{\"groups\":[{\"links\":[[\"n0\",\"n1\"]],\"width\":1},{\"links\":[[\"n1\",\"n0\"]],\"width\":1}],\"nodes\":[\"n0\",\"n1\"],\"version\":1},\"words\":{\"chunks\":1,\"collective\":\"broadcast\",\"conflicts\":1000,\"k\":0,\"root\":\"n0\",\"steps\":1}}\n";

const PROGRAMS_JSON: &[u8] =
    b"{\"point\":1,\"programs\":[{\"node\":\"n0\",\"ops\":[[1,\"send\",0,\"n1\"]]},{\"node\":\"n1\",\"ops\":[[1,\"take\",0,\"n0\",\"copy\"]]}]}\n";

/// A run that opens no file.
fn run_of<'a>(words: &'a [&'a str], given: &'a [u8], status: Status, text: &'a [u8]) -> Run<'a> {
    Run {
        words,
        given: Some(given),
        files: &[],
        shelved: [0; 3],
        status,
        text,
    }
}

#[test]
fn ports_that_fail(rt: HostRuntime) -> Result<(), Fail> {
    let done = Status::Done;
    let table: [Run; 7] = [
        run_of(&["json", "what=topology"], PAIR, done, PAIR_JSON),
        run_of(&["json", "what=report"], REPORT, done, REPORT_JSON),
        run_of(
            &["json", "what=programs", "point=1"],
            REPORT,
            done,
            PROGRAMS_JSON,
        ),
        run_of(&["unjson", "what=topology"], PAIR_JSON, done, PAIR),
        run_of(&["unjson", "what=report"], REPORT_JSON, done, REPORT),
        run_of(
            &["unjson", "what=report"],
            PAIR_JSON,
            Status::BadJson,
            b"refused 12 2 0\n",
        ),
        run_of(
            &["json", "what=report"],
            PAIR,
            Status::BadReport,
            b"refused 7 1 1\n",
        ),
    ];
    for it in table {
        fails_at_each_call(&rt, it)?;
    }
    Ok(())
}
