//! Whole runs over ports in memory.

use outer_ports::{MemorySink, SureShelf, SureSource};
use sccl_run::{Status, run};
use std::alloc::{AllocError, Global};
use std::process::Abort;

mod checks;
mod exchanges;
mod families;
mod folders;
mod ports;
mod proofs;
mod pruned;
mod reports;
mod search_files;
mod searches;
mod streams;

fn words(alloc: Global, all: &[&str]) -> Result<Vec<String>, AllocError> {
    let mut words = Vec::new(alloc);
    for word in all {
        words.push(String::from_str(alloc, word)?)?;
    }
    Ok(words)
}

/// Runs words over a source of these bytes, and compares the status and what is written.
fn runs(
    rt: &(impl Abort + AllocGlobal),
    all: &[&str],
    bytes: &[u8],
    status: Status,
    text: &[u8],
) -> Result<(), AllocError> {
    let alloc = rt.alloc();
    let words = words(alloc, all)?;
    let mut source = SureSource::new(Vec::from_slice(alloc, bytes)?);
    let mut sink = MemorySink::new(alloc, 4096, Vec::new(alloc))?;
    let mut shelf = SureShelf::new(alloc)?;
    let ended = run(alloc, &words, &mut source, &mut sink, &mut shelf);
    assert_eq!(rt; ended, status);
    assert_eq!(rt; sink.bytes(), text);
    Ok(())
}

/// The report with one part of it replaced.
fn changed(alloc: Global, report: &[u8], old: &[u8], new: &[u8]) -> Result<Vec<u8>, AllocError> {
    let mut text = Vec::new(alloc);
    for at in 0..report.len() {
        if report[at..].starts_with(old) {
            text.extend_from_slice(&report[..at])?;
            text.extend_from_slice(new)?;
            text.extend_from_slice(&report[at + old.len()..])?;
            return Ok(text);
        }
    }
    Ok(text)
}
