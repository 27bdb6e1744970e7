use schedule::Hop;

/// What is said of a schedule that adds up: that it sums, or the first part of that claim that
/// fails.
#[derive(Clone, Copy, Debug, PartialEq, Eq)]
pub enum SumVerdict {
    /// Every sum that is demanded has each node's contribution exactly once.
    Sums,
    /// After the last step the sum of this chunk at this node has no contribution of the node `of`.
    Missing { chunk: u16, node: u8, of: u8 },
    /// After the last step the sum of this chunk at this node has the contribution of the node `of`
    /// at least twice.
    Twice { chunk: u16, node: u8, of: u8 },
    /// At this step `count` sends have their link in this group, more than its width allows in the
    /// step's rounds.
    Overfull { step: u8, group: u16, count: u32 },
    /// This send has no usable link.
    NoLink { hop: Hop },
    /// At this step, which copies, the chunk comes to the node more than once.
    Clash { chunk: u16, node: u8, step: u8 },
}
