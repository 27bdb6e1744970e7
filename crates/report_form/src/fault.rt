//! Why a text is no report, and where.

ghost use Rattle.std.specs.Prelude.{◌≡◌};
ghost use Rattle.report_form.specs.Answer.{report_number};

/// Why a text is no report, or was not read.
#[derive(Clone, Copy, Debug, PartialEq, Eq)]
pub enum ReportCode {
    /// A line has a wrong shape, names no node, has a number above 65,535 where none may be, or
    /// follows `end`.
    BadLine,
    /// A line is lacking, or lacks its line feed.
    Truncated,
    /// A line of the right shape breaks a rule.
    Limits,
    /// Memory ran out, and nothing is said of the text.
    OutOfMemory,
}

impl ReportCode {
    /// The number by which a refusal names the code, from 1 to 4 in the order of the variants.
    pub fn number(self) -> u32
        ensures { result ≡ report_number self }
    {
        match self {
            ReportCode::BadLine => 1,
            ReportCode::Truncated => 2,
            ReportCode::Limits => 3,
            ReportCode::OutOfMemory => 4,
        }
    }
}

/// The first check that failed, and the number of its line, from 1. Out of memory has line 0.
#[derive(Clone, Copy, Debug, PartialEq, Eq)]
pub struct ReportFault {
    pub code: ReportCode,
    pub line: u32,
}
