use crate::kind::Kind;

/// A collective with its root, a node's number. A kind that takes no root has root 0.
#[derive(Clone, Copy, Debug, PartialEq, Eq)]
pub struct Collective {
    pub kind: Kind,
    pub root: u8,
}
