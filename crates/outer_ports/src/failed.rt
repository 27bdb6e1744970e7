//! The fault of a port.

/// The outside failed: a read or a write could not be done.
#[derive(Clone, Copy, Debug, PartialEq, Eq)]
pub struct Failed;
