//! Faults of links.

/// What is left of a group of links: how wide it is, where 0 says that its links are gone.
#[derive(Clone, Copy)]
pub struct LinkFault {
    /// The number of the group, from 0.
    pub group: u16,
    /// The index of the word that gives the group.
    pub group_word: u32,
    /// The width that is left.
    pub width: u8,
    /// The index of the word that gives the width.
    pub width_word: u32,
}
