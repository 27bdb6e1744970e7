use crate::hop::Hop;

/// What is said of a schedule: that it solves its instance, or the first part of that claim that
/// fails.
#[derive(Clone, Copy, Debug, PartialEq, Eq)]
pub enum Verdict {
    /// It solves the instance.
    Solves,
    /// At this step `count` sends have their link in this group, more than its width allows in the
    /// step's rounds.
    Overfull { step: u8, group: u16, count: u32 },
    /// This node lacks this chunk after the last step.
    Lacking { chunk: u16, node: u8 },
    /// This send has no usable link.
    NoLink { hop: Hop },
}
