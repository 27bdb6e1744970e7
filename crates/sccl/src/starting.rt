//! What comes before the top call and behind it.

ghost use Rattle.std.specs.Prelude.{◌≡◌, ◌≢◌, IsOk};

use outer_ports::{Failed, FileCalls, FolderShelf, Sink, Source};
use sccl_run::{Status, run};
use std::alloc::Global;
use std::env::Args;
use std::io;
use std::io::ErrorKind;
use system_calls::{NumberCalls, Stream, behind_name, hold_numbers};

/// The folder of the proof files, in the working directory. It is made when the first of them is
/// begun.
const FOLDER: &str = "proofs";

/// Hands the words, the source, the sink and the folder to the top call. Before that it takes the
/// numbers of closed standard streams, and behind it it closes the files of the folder: where
/// either can't be done, the status is that of the port that is lacking.
pub fn start<N: NumberCalls + Drop, I: Source + Drop, O: Sink + Drop, C: FileCalls + Drop>(
    alloc: Global,
    numbers: N,
    words: io::Result<Args>,
    source: I,
    sink: O,
    files: C,
) -> Status {
    let mut numbers = numbers;
    let (mut source, mut sink) = (source, sink);
    let _held = match hold_numbers(&mut numbers) {
        Ok(held) => held,
        Err(stream) => return lacking(stream),
    };
    let words = match words_of(alloc, words) {
        Ok(words) => words,
        Err(status) => return status,
    };
    let Ok(folder) = String::from_str(alloc, FOLDER) else {
        return Status::OutOfMemory;
    };
    let mut shelf = FolderShelf::new(alloc, files, folder);
    let status = run(alloc, &words, &mut source, &mut sink, &mut shelf);
    let (_files, closed) = shelf.close();
    ended(status, closed)
}

// The status where the number of a stream can't be taken. A file of the folder would have that of
// standard error.
fn lacking(stream: Stream) -> Status
    ensures { result ≢ Status.Done }
{
    match stream {
        Stream::Input => Status::SourceFailed,
        Stream::Output => Status::SinkFailed,
        Stream::Errors => Status::ShelfFailed,
    }
}

// The words behind the program's name. Words that are not UTF-8 are no command; where memory runs
// out there are none.
fn words_of(alloc: Global, words: io::Result<Args>) -> Result<Vec<String>, Status> {
    match words {
        Ok(args) => behind_name(alloc, args).map_err(|_| Status::OutOfMemory),
        Err(error) if error.kind() == ErrorKind::OutOfMemory => Err(Status::OutOfMemory),
        Err(_) => Err(Status::BadWords),
    }
}

// A close that failed is a fault of the shelf, where nothing else ended the run.
fn ended(status: Status, closed: Result<(), Failed>) -> Status
    ensures done { result ≡ Status.Done → (status ≡ Status.Done) × IsOk closed }
    ensures kept { status ≢ Status.Done → result ≡ status }
{
    match (status, closed) {
        (Status::Done, Err(Failed)) => Status::ShelfFailed,
        _ => status,
    }
}
