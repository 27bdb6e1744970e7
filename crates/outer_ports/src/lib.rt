//! Sources and sinks of bytes and shelves of proof files, in memory and over the standard library's
//! readers, writers and folders.
#![tactic(auto)]

mod beginning;
mod failed;
mod file_calls;
mod file_map;
mod folder;
mod folder_shelf;
mod looking;
mod memory_shelf;
mod memory_sink;
mod memory_source;
mod moving;
mod open_files;
mod part;
mod proof_name;
mod read_fault;
mod reader_source;
mod reading;
mod shelf;
mod shelf_fault;
mod shelving;
mod sink;
mod source;
mod sure_shelf;
mod sure_sink;
mod sure_source;
mod vectors;
mod writer_sink;
mod writing;

pub use failed::Failed;
pub use file_calls::FileCalls;
pub use folder_shelf::FolderShelf;
pub use memory_shelf::MemoryShelf;
pub use memory_sink::MemorySink;
pub use memory_source::MemorySource;
pub use part::Part;
pub use proof_name::{FileKind, ProofName};
pub use read_fault::ReadFault;
pub use reader_source::ReaderSource;
pub use reading::read_all;
pub use shelf::Shelf;
pub use shelf_fault::ShelfFault;
pub use shelving::{append_all, write_file};
pub use sink::Sink;
pub use source::Source;
pub use std::alloc::AllocError as OutOfMemory;
pub use sure_shelf::SureShelf;
pub use sure_sink::SureSink;
pub use sure_source::SureSource;
pub use vectors::file_words;
pub use writer_sink::WriterSink;
pub use writing::write_all;
