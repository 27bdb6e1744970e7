//! What an audit answers.

ghost use Rattle.std.specs.Prelude.{◌≡◌};
ghost use Rattle.frontier_audit.specs.Denials.{reason_number};

use candidate_order::Candidate;
use outer_ports::Part;

/// Which check of a report fails.
#[derive(Clone, Copy, Debug, PartialEq, Eq)]
pub enum Reason {
    /// The schedule of a point does not solve its candidate, or does not sum.
    ScheduleWrong,
    /// A point is marked optimal and some better candidate is not refuted, or it is marked open and
    /// every better one is.
    MarkWrong,
    /// A candidate within the limits is no point, is neither refuted nor unknown, and no point is
    /// no worse.
    CandidateMissing,
    /// A file that has to stand beside the report is not there.
    ProofMissing,
    /// The proof of a refuted candidate does not refute its formula.
    ProofRefused,
    /// The formula's file is not the text of the candidate's formula.
    CnfDiffers,
    /// The log of an unknown candidate is not a spent log of its conflicts.
    PartialRefused,
    /// A joined point is lacking, differs from the join of its two points, or is one too many.
    JoinWrong,
}

impl Reason {
    /// The number by which a refusal names the reason, from 1 to 8 in the order of the variants.
    pub fn number(self) -> u32
        ensures { result ≡ reason_number self }
    {
        match self {
            Reason::ScheduleWrong => 1,
            Reason::MarkWrong => 2,
            Reason::CandidateMissing => 3,
            Reason::ProofMissing => 4,
            Reason::ProofRefused => 5,
            Reason::CnfDiffers => 6,
            Reason::PartialRefused => 7,
            Reason::JoinWrong => 8,
        }
    }
}

/// The report and the files beside it are right, or the first check that fails, and the candidate
/// at which it fails.
#[derive(Clone, Copy, Debug, PartialEq, Eq)]
pub enum AuditVerdict {
    Verified,
    Denied {
        reason: Reason,
        part: Part,
        candidate: Candidate,
    },
}
