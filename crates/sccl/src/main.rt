//! The program: the words of the command line, standard input, standard output and a folder of
//! proof files, handed to the top call.
#![tactic(auto)]

mod starting;

use crate::starting::start;
use outer_ports::{ReaderSource, WriterSink};
use std::env;
use std::process::ExitCode;
use system_calls::{SystemFiles, SystemNumbers};

fn main(rt: HostRuntime) -> ExitCode {
    let status = start(
        rt.alloc(),
        SystemNumbers::new(&rt),
        env::args(&rt),
        ReaderSource::new(rt.stdin()),
        WriterSink::new(rt.stdout()),
        SystemFiles::new(&rt),
    );
    ExitCode::from(status.number())
}
