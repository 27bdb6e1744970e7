//! The statuses with which the program ends.

ghost use Rattle.std.specs.Prelude.{◌≡◌};
ghost use Rattle.run_rules.specs.Statuses.{status_number};

/// How a run ended. The number of a status is the program's exit status.
#[derive(Clone, Copy, Debug, PartialEq, Eq)]
pub enum Status {
    /// What the command asks for was written.
    Done = 0,
    /// Memory ran out; nothing was written.
    OutOfMemory = 1,
    /// The words are refused.
    BadWords = 2,
    /// The text that was read is no topology.
    BadTopology = 3,
    /// The source failed; nothing was written.
    SourceFailed = 4,
    /// The sink failed; a part of the text may have been written.
    SinkFailed = 5,
    /// The shelf failed; nothing was written.
    ShelfFailed = 6,
    /// The text that was read is not a report that the command takes.
    BadReport = 7,
    /// A check of the report failed.
    Denied = 8,
    /// The search is larger than the limit on its size.
    TooLarge = 9,
    /// No chunk count within the limits is allowed.
    NoCandidate = 10,
    /// More than 1,048,576 bytes came.
    TooLong = 11,
    /// What was read is no JSON, or none of a value that is asked for.
    BadJson = 12,
}

impl Status {
    /// The exit status, from 0 to 12.
    pub fn number(self) -> u8
        ensures { result ≡ status_number self }
    {
        self as u8
    }
}
