//! What is written of a verdict.

ghost use Rattle.std.specs.Prelude.{◌≡◌, ◌++◌, IfOk, OnOk, codes, decimal};
ghost use Rattle.outer_ports.specs.Files.{candidate_word, part_prefix};
ghost use Rattle.run_rules.specs.{Answers.Says, Audits.not_denied, Steps.{verdict_status, verdict_text}, Commands.IsRefusal};

use crate::OutOfMemory;
use crate::answer::{Answer, refusal_at};
use crate::status::Status;
use candidate_order::Candidate;
use frontier_audit::{AuditVerdict, Reason};
use outer_ports::Part;
use std::alloc::Global;
use text_lines::{push_number, push_word};

/// What stands before a candidate of the part.
fn front_of(part: Part) -> &'static [u8]
    ensures { result.now ≡ part_prefix part }
{
    match part {
        Part::Whole => b"",
        Part::Reduce => b"reduce-",
        Part::Gather => b"gather-",
        Part::Joined => b"joined-",
    }
}

/// Appends a dash and the number.
fn push_dashed(out: &mut Vec<u8>, number: u8) -> Result<(), OutOfMemory>
    ensures { OnOk result (out.new.items ≡ out.old.items ++ codes "-" ++ decimal number) }
{
    push_word(out, b"-")?;
    push_number(out, u64::from(number))
}

/// Appends the steps, the rounds and the chunk count of a candidate, behind the name of its part.
fn push_candidate(out: &mut Vec<u8>, part: Part, candidate: Candidate) -> Result<(), OutOfMemory>
    ensures { OnOk result (out.new.items ≡ out.old.items ++ candidate_word part candidate.s candidate.r candidate.c) }
{
    push_word(out, front_of(part))?;
    push_number(out, u64::from(candidate.s))?;
    push_dashed(out, candidate.r)?;
    push_dashed(out, candidate.c)
}

/// The answer of a denial.
fn denial(
    alloc: Global,
    reason: Reason,
    part: Part,
    candidate: Candidate,
) -> Result<Answer, OutOfMemory>
    ensures says { let told = not_denied (AuditVerdict.Denied reason part candidate) in IfOk result (λ a. Says (verdict_status told) (verdict_text told) a.status a.text.items) }
    ensures denied { IfOk result (λ a. a.status ≡ Status.Denied) }
{
    let mut place = Vec::new(alloc);
    push_candidate(&mut place, part, candidate)?;
    refusal_at(alloc, Status::Denied, u64::from(reason.number()), &place)
}

/// The answer that tells a verdict: `verified`, or the refusal of a report that is denied, with the
/// reason and the candidate. The only error is `OutOfMemory`.
pub fn verdict_answer(alloc: Global, verdict: AuditVerdict) -> Result<Answer, OutOfMemory>
    ensures says { IfOk result (λ a. Says (verdict_status (not_denied verdict)) (verdict_text (not_denied verdict)) a.status a.text.items) }
    ensures accepted { IfOk result (λ a. ¬ IsRefusal a.status) }
{
    match verdict {
        AuditVerdict::Verified => Ok(Answer {
            status: Status::Done,
            text: Vec::from_slice(alloc, b"verified\n")?,
        }),
        AuditVerdict::Denied {
            reason,
            part,
            candidate,
        } => denial(alloc, reason, part, candidate),
    }
}
