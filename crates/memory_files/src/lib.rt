//! A file system in memory, as single calls see it.
#![tactic(auto)]

mod memory_file;
mod memory_files;

pub use memory_file::MemoryFile;
pub use memory_files::MemoryFiles;
