//! Why a text is refused, and where.

ghost use Rattle.std.specs.Prelude.{◌≡◌};
ghost use Rattle.topology_text.specs.Answer.{topology_number};

/// Why a text is no topology's, or was not read.
#[derive(Clone, Copy, Debug, PartialEq, Eq)]
pub enum TopologyCode {
    /// The first line is neither `topology 1` nor `topology 2`.
    BadHeader,
    /// A line lacks its line feed, or is not made of the tokens that it should have.
    BadLine,
    /// A name of a node is not 1 to 16 bytes of a to z, 0 to 9 and `_`.
    BadName,
    /// Two nodes have one name.
    NameTwice,
    /// A link or a pattern names no node of the second line.
    UnknownNode,
    /// A link leaves and enters the same node.
    SelfLink,
    /// A link stands twice in one group.
    LinkTwice,
    /// A width is no number from 1 to 16 in canonical decimal.
    WidthRange,
    /// More than 16 names.
    TooManyNodes,
    /// More than 256 groups.
    TooManyGroups,
    /// The second line is not there, or has no name.
    NoNodes,
    /// Memory ran out, and nothing is said of the text.
    OutOfMemory,
    /// The number of a pattern's chunks is no number from 1 to 16 in canonical decimal.
    BaseRange,
    /// The nodes that hold a chunk are not named in ascending order, each once.
    NameOrder,
}

impl TopologyCode {
    /// The number by which reports name the code, from 1 to 14 in the order of the variants.
    pub fn number(self) -> u32
        ensures { result ≡ topology_number self }
    {
        match self {
            TopologyCode::BadHeader => 1,
            TopologyCode::BadLine => 2,
            TopologyCode::BadName => 3,
            TopologyCode::NameTwice => 4,
            TopologyCode::UnknownNode => 5,
            TopologyCode::SelfLink => 6,
            TopologyCode::LinkTwice => 7,
            TopologyCode::WidthRange => 8,
            TopologyCode::TooManyNodes => 9,
            TopologyCode::TooManyGroups => 10,
            TopologyCode::NoNodes => 11,
            TopologyCode::OutOfMemory => 12,
            TopologyCode::BaseRange => 13,
            TopologyCode::NameOrder => 14,
        }
    }
}

/// The first check that failed, and the number of its line, from 1. Out of memory has line 0.
#[derive(Clone, Copy, Debug, PartialEq, Eq)]
pub struct TopologyFault {
    pub code: TopologyCode,
    pub line: u32,
}
