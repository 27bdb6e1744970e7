//! What is said of a file.

/// What is said of a file that has to stand beside a report.
#[derive(Clone, Copy, Debug, PartialEq, Eq)]
pub enum FileVerdict {
    /// No file has the name.
    Missing,
    /// The file is not what it has to be.
    Refused,
    /// The file is what it has to be.
    Stands,
}
