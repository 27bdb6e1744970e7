//! The search that a number stands for.

ghost use Rattle.std.specs.Prelude.{◌≡◌, ◌≤◌, IfOk};
ghost use Rattle.run_rules.specs.Trials.{trial_chunks, trial_family, trial_kind, trial_size, trial_words};
ghost use Rattle.trial_command.specs.Counts.{trial_topology};

use crate::OutOfMemory;
use candidate_order::Limits;
use collective_spec::{Collective, Kind};
use report_form::Words;
use std::alloc::Global;
use topology_families::{FamilyKind, family};
use topology_text::NamedTopology;

/// The kind of the family that the search is on.
pub(crate) fn trial_family(n: u16) -> FamilyKind
    ensures { result ≡ trial_family n }
{
    match n % 4 {
        0 => FamilyKind::Line,
        1 => FamilyKind::Ring,
        2 => FamilyKind::Complete,
        _ => FamilyKind::Shared,
    }
}

/// How many nodes it has, from 3 to 10.
pub(crate) fn trial_size(n: u16) -> u8
    ensures size { result ≡ trial_size n }
    ensures some { 3 ≤ result }
    ensures few { result ≤ 10 }
{
    3 + (n / 4 % 8) as u8
}

fn trial_kind(n: u16) -> Kind
    ensures { result ≡ trial_kind n }
{
    match n / 32 % 8 {
        0 => Kind::Broadcast,
        1 => Kind::Gather,
        2 => Kind::Allgather,
        3 => Kind::Scatter,
        4 => Kind::Alltoall,
        5 => Kind::Reduce,
        6 => Kind::Reducescatter,
        _ => Kind::Allreduce,
    }
}

/// The greatest chunk count of a trial of this kind, at most 10.
fn trial_chunks(n: u16, kind: Kind) -> u8
    ensures chunks { result ≡ trial_chunks n kind }
    ensures some { 1 ≤ result }
    ensures few { result ≤ 10 }
{
    match kind {
        Kind::Alltoall => trial_size(n),
        _ => 1 + (n / 2048 % 2) as u8,
    }
}

/// The words of the search, from the first node.
pub(crate) fn trial_words(n: u16) -> Words
    ensures { result ≡ trial_words n }
{
    let kind = trial_kind(n);
    let extra = (n / 256 % 2) as u8;
    let steps = 1 + (n / 512 % 4) as u8;
    let limits = Limits::new(extra, steps, trial_chunks(n, kind), 2000);
    Words::new(Collective { kind, root: 0 }, limits)
}

/// The topology of the search. The only error is `OutOfMemory`.
pub(crate) fn trial_topology(alloc: Global, n: u16) -> Result<NamedTopology, OutOfMemory>
    ensures { IfOk result (λ t. t ≡ trial_topology n) }
{
    family(alloc, trial_family(n), trial_size(n))
}
