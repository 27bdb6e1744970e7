//! Topologies of families.

ghost use Rattle.std.specs.Prelude.{IsTrue, IfOk, Ok};
ghost use Rattle.topology_text.specs.Spelling.{spelling};
ghost use Rattle.topology_families.specs.Family.{family_of, is_allowed};
ghost use Rattle.run_rules.specs.{Answers.IsAnswerAlone, Tasks.Write};

use run_rules::{Answer, OutOfMemory, Status};
use std::alloc::Global;
use topology_families::{FamilyKind, family};
use topology_text::print_topology;

/// The topology of a family.
#[tactic(auto, using(run_rules::proofs::Answered::written))]
pub(crate) fn family_answer(
    alloc: Global,
    kind: FamilyKind,
    size: u8,
) -> Result<Answer, OutOfMemory>
    requires { IsTrue (is_allowed kind size) }
    ensures { IfOk result (λ a. IsAnswerAlone (Ok (Write (spelling (family_of kind size)))) a.status a.text.items) }
{
    let topology = family(alloc, kind, size)?;
    let text = print_topology(alloc, &topology)?;
    Ok(Answer {
        status: Status::Done,
        text,
    })
}
