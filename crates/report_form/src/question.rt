//! What a part of a report asks for.

ghost use Rattle.std.specs.Prelude.{◌≡◌, IfOk};
ghost use Rattle.report_form.specs.Reports.{kind_of, question_of};

use crate::Words;
use collective_spec::{Collective, Kind, Spec};
use outer_ports::Part;
use std::alloc::AllocError;
use topology_text::NamedTopology;

/// The collective of a part: the parts of an allreduce reduce and gather.
pub fn kind_of_part(whole: Kind, part: Part) -> Kind
    ensures { result ≡ kind_of whole part }
{
    match part {
        Part::Whole | Part::Joined => whole,
        Part::Reduce => Kind::Reducescatter,
        Part::Gather => Kind::Allgather,
    }
}

/// What a part of these words asks for, with the pattern of the topology where it has one. The only
/// error is `OutOfMemory`.
pub fn spec_of_part(words: Words, topology: &NamedTopology, part: Part) -> Result<Spec, AllocError>
    ensures { IfOk result (λ spec. spec ≡ (question_of words topology.now part).spec) }
{
    let whole = words.collective();
    let collective = Collective {
        kind: kind_of_part(whole.kind, part),
        root: whole.root,
    };
    let pattern = match topology.custom() {
        None => None,
        Some(pattern) => Some(pattern.clone()?),
    };
    Ok(Spec::of(collective, pattern))
}
