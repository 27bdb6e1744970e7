//! Why words are refused, and where.

ghost use Rattle.std.specs.Prelude.{◌≡◌};
ghost use Rattle.command_words.specs.Codes.{word_number};

/// Why words are refused.
#[derive(Clone, Copy, Debug, PartialEq, Eq)]
pub enum WordCode {
    /// There is no word.
    NoCommand = 1,
    /// The first word is no command.
    UnknownCommand = 2,
    /// A word has no `=`, or a key that the command doesn't have.
    UnknownKey = 3,
    /// A key stood before.
    KeyTwice = 4,
    /// A key is lacking that the command requires.
    KeyMissing = 5,
    /// A value is none that its key takes, or the kind of family has no topology of this size.
    BadValue = 6,
    /// A root is named, and the collective takes none.
    RootNotTaken = 7,
    /// The root is no node of the topology.
    UnknownRoot = 8,
    /// The report has no point of this number.
    UnknownPoint = 9,
    /// Memory ran out, and nothing is said of the words.
    OutOfMemory = 10,
    /// The collective is `custom` and the topology gives none, or the topology gives one and the
    /// collective is another.
    CustomMismatch = 12,
    /// The report is of an allreduce, which the command does not take.
    ReportNotTaken = 13,
    /// The topology of the report has no group of this number.
    UnknownGroup = 14,
    /// The width is not below that of the group.
    NotNarrower = 15,
}

impl WordCode {
    /// The number by which a refusal names the code, from 1 to 15; there is no 11.
    pub fn number(self) -> u8
        ensures { result ≡ word_number self }
    {
        self as u8
    }
}

/// The refusal that counts, and the index of its word, the command being word 0.
#[derive(Clone, Copy, Debug, PartialEq, Eq)]
pub struct WordFault {
    pub code: WordCode,
    pub word: u32,
}
