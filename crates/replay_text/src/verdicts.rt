//! The lines of verdicts: nodes by name, groups by number.

ghost use Rattle.std.specs.Prelude.{◌≡◌, ◌++◌, ◌∷◌, [], decimal, OnOk};
ghost use Rattle.text_lines.specs.Text.{line};
ghost use Rattle.topology_text.specs.Spelling.{name_at};
ghost use Rattle.inversion.specs.Saying.{says_solves, says_sums};
ghost use Rattle.replay_text.specs.{Replay.verdict_words, Showing.sum_words};

use crate::OutOfMemory;
use inversion::SumVerdict;
use schedule::{Hop, Verdict};
use text_lines::{push_number_field, push_word};
use topology_text::{Name, push_node_field};

/// Appends the line of a send without a usable link.
fn push_no_link(out: &mut Vec<u8>, names: &[Name], hop: Hop) -> Result<(), OutOfMemory>
    ensures { OnOk result (out.new.items ≡ out.old.items ++ line (verdict_words names.now (Verdict.NoLink hop))) }
{
    push_word(out, b"nolink")?;
    push_number_field(out, u64::from(hop.chunk))?;
    push_node_field(out, names, hop.from)?;
    push_node_field(out, names, hop.to)?;
    push_number_field(out, u64::from(hop.step))?;
    push_word(out, b"\n")
}

/// Appends the line of a group over its bandwidth.
fn push_overfull(out: &mut Vec<u8>, step: u8, group: u16, count: u32) -> Result<(), OutOfMemory>
    ensures { OnOk result (out.new.items ≡ out.old.items ++ line (verdict_words [] (Verdict.Overfull step group count))) }
{
    push_word(out, b"overfull")?;
    push_number_field(out, u64::from(step))?;
    push_number_field(out, u64::from(group))?;
    push_number_field(out, u64::from(count))?;
    push_word(out, b"\n")
}

/// Appends the line of a chunk at a node, and of the node whose contribution counts wrong.
fn push_uneven(
    out: &mut Vec<u8>,
    names: &[Name],
    word: &[u8],
    chunk: u16,
    node: u8,
    of: u8,
) -> Result<(), OutOfMemory>
    ensures { OnOk result (out.new.items ≡ out.old.items ++ line (word.now ∷ decimal chunk ∷ name_at names.now node ∷ name_at names.now of ∷ [])) }
{
    push_word(out, word)?;
    push_number_field(out, u64::from(chunk))?;
    push_node_field(out, names, node)?;
    push_node_field(out, names, of)?;
    push_word(out, b"\n")
}

/// Appends the line of the verdict on a schedule that copies.
pub(crate) fn push_verdict(
    out: &mut Vec<u8>,
    names: &[Name],
    verdict: Verdict,
) -> Result<(), OutOfMemory>
    ensures { OnOk result (out.new.items ≡ out.old.items ++ line (verdict_words names.now verdict)) }
{
    match verdict {
        Verdict::Solves => push_word(out, b"holds\n"),
        Verdict::NoLink { hop } => push_no_link(out, names, hop),
        Verdict::Overfull { step, group, count } => push_overfull(out, step, group, count),
        Verdict::Lacking { chunk, node } => {
            push_word(out, b"lacking")?;
            push_number_field(out, u64::from(chunk))?;
            push_node_field(out, names, node)?;
            push_word(out, b"\n")
        }
    }
}

/// Appends the line of the verdict on a schedule that adds up.
pub(crate) fn push_sum_verdict(
    out: &mut Vec<u8>,
    names: &[Name],
    verdict: SumVerdict,
) -> Result<(), OutOfMemory>
    ensures { OnOk result (out.new.items ≡ out.old.items ++ line (sum_words names.now verdict)) }
{
    match verdict {
        SumVerdict::Sums => push_word(out, b"holds\n"),
        SumVerdict::Missing { chunk, node, of } => {
            push_uneven(out, names, b"missing", chunk, node, of)
        }
        SumVerdict::Twice { chunk, node, of } => {
            push_uneven(out, names, b"twice", chunk, node, of)
        }
        SumVerdict::NoLink { hop } => push_no_link(out, names, hop),
        SumVerdict::Overfull { step, group, count } => push_overfull(out, step, group, count),
        SumVerdict::Clash { chunk, node, step } => {
            push_word(out, b"clash")?;
            push_number_field(out, u64::from(chunk))?;
            push_node_field(out, names, node)?;
            push_number_field(out, u64::from(step))?;
            push_word(out, b"\n")
        }
    }
}

/// Whether the verdict says that the schedule solves its instance.
pub(crate) fn says_solves(verdict: &Verdict) -> bool
    ensures { result ≡ says_solves verdict.now }
{
    matches!(verdict, Verdict::Solves)
}

/// Whether the verdict says that the schedule sums what is demanded.
pub(crate) fn says_sums(verdict: &SumVerdict) -> bool
    ensures { result ≡ says_sums verdict.now }
{
    matches!(verdict, SumVerdict::Sums)
}
