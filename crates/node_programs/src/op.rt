//! The operations of a node's program.

use bag_runs::Mode;

/// One operation. Chunks and nodes are numbered from 0, steps from 1.
#[derive(Clone, Copy, Debug, PartialEq, Eq)]
pub enum Op {
    /// Appends the node's bag of the chunk to the queue to another node.
    Send {
        chunk: u16,
        to: u8,
        step: u8,
    },
    /// Takes the head of the queue from another node, which must be of this chunk and step.
    Take {
        chunk: u16,
        from: u8,
        step: u8,
        mode: Mode,
    },
}
