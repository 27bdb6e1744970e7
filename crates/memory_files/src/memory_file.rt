//! An open file of a file system in memory.

/// An open file of a [`MemoryFiles`](crate::MemoryFiles).
#[derive(Debug, Drop)]
pub struct MemoryFile {
    pub(crate) number: usize,
}
