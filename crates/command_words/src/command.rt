//! What the words ask for.

use candidate_order::Limits;
use collective_spec::Kind;
use topology_families::FamilyKind;
use topology_text::Name;

/// The value of a word `root=NAME`, and the word's index.
#[derive(Clone, Copy, Debug, PartialEq, Eq)]
pub struct RootWord {
    pub name: Name,
    /// The index of the word, the command being word 0.
    pub word: u32,
}

/// What the words of a search ask for.
#[derive(Clone, Copy, Debug, PartialEq, Eq)]
pub struct SearchWords {
    pub kind: Kind,
    /// The index of the word `collective`, the command being word 0.
    pub kind_word: u32,
    pub limits: Limits,
    /// The root, where one is named. Only a kind that takes a root has one.
    pub root: Option<RootWord>,
}

/// What is read or written as JSON.
#[derive(Clone, Copy, Debug, PartialEq, Eq)]
pub enum JsonWhat {
    /// A topology.
    Topology,
    /// A report.
    Report,
    /// The node programs of a point of a report. They are written alone.
    Programs,
}

/// The number of a point, and the index of its word.
#[derive(Clone, Copy, Debug, PartialEq, Eq)]
pub struct PointWord {
    /// The point's number, from 1 to 65,535.
    pub point: u32,
    /// The index of the word `point`, the command being word 0.
    pub word: u32,
}

/// A command, with the values of its words.
#[derive(Clone, Copy, Debug, PartialEq, Eq)]
pub enum Command {
    /// Searches schedules of a collective within the limits.
    Synth {
        kind: Kind,
        /// The index of the word `collective`.
        kind_word: u32,
        /// How far the search goes, and what it leaves out.
        limits: Limits,
        /// The root, where one is named. Only a kind that takes a root has one.
        root: Option<RootWord>,
        /// Whether proofs that lie there from before are taken in place of a search.
        kept: bool,
    },
    /// Checks a report, with the files beside it.
    Check,
    /// Runs the schedule of a point of a report.
    Replay {
        /// The point's number, from 1 to 65,535.
        point: u32,
        /// The index of the word `point`.
        point_word: u32,
        /// The seed from which the order of the nodes' events is drawn, where one is given.
        order: Option<u64>,
    },
    /// Gives the node programs of a point of a report.
    Programs {
        /// The point's number, from 1 to 65,535.
        point: u32,
        /// The index of the word `point`.
        point_word: u32,
    },
    /// Gives a topology of a family. The kind allows the size.
    Family {
        kind: FamilyKind,
        size: u8,
    },
    /// Searches as `Synth` does, and tells of each candidate that a cut refutes which cut that is.
    /// The kind is not allreduce, and the limits leave nothing out.
    Bound {
        kind: Kind,
        /// The index of the word `collective`.
        kind_word: u32,
        limits: Limits,
        /// The root, where one is named. Only a kind that takes a root has one.
        root: Option<RootWord>,
        /// Whether cuts are sought among all sets of nodes, and not only among those that are listed.
        all_sets: bool,
    },
    /// Searches schedules in which interchangeable chunks come in order. The kind is not allreduce,
    /// and the limits leave nothing out.
    Ordered {
        kind: Kind,
        /// The index of the word `collective`.
        kind_word: u32,
        limits: Limits,
        /// The root, where one is named. Only a kind that takes a root has one.
        root: Option<RootWord>,
    },
    /// Searches anew what a report searched, where a group of links is narrower or gone.
    Degrade {
        /// The number of the group, from 0 to 255.
        group: u16,
        /// The index of the word `group`.
        group_word: u32,
        /// The width that is left to it, from 0 to 16; with 0 its links are gone.
        width: u8,
        /// The index of the word `width`.
        width_word: u32,
    },
    /// Gives a value as JSON.
    Json {
        what: JsonWhat,
        /// The point, just where programs are asked for.
        point: Option<PointWord>,
    },
    /// Gives the text of a value that is read as JSON.
    Unjson {
        /// A topology or a report.
        what: JsonWhat,
    },
    /// Makes the trial of this number, at most 4095: a small search, its check and its replays.
    Trial {
        n: u16,
    },
}
