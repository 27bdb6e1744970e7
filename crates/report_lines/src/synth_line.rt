//! The line that says what was asked.

ghost use Rattle.std.specs.Prelude.{◌≡◌, Some, None, if◌then◌else◌, IfOk, find, bytes_eq, OnOk};
ghost use Rattle.text_lines.specs.{Line.{IsIn, row_at}, Check.{line_part, Tells}};
ghost use Rattle.collective_spec.specs.Kinds.{word_of};
ghost use Rattle.report_form.specs.{SynthLine.{asked_line, kind_named, kinds_of, limits_from, pruning_from, root_from}, Fields.next_keyed, Tests.are_limits};
ghost use Rattle.report_lines.specs.{Gives.TellsAt, Room.{HasRoom, Onward}, Spelled.{AreNumbers, asked_value, limits_of}};

use crate::digits::{keyed_digits, number_in};
use crate::fields::{fixed_word, next_name, next_value, no_more};
use crate::lines::{next_line, tokens_on};
use candidate_order::{Limits, MAX_CHUNKS, MAX_CONFLICTS, MAX_K, MAX_STEPS, Pruning};
use collective_spec::{Kind, is_custom, takes_root};
use report_form::{ReportCode, ReportFault};
use text_lines::{Line, Lines, Tokens};
use topology_text::Name;

/// The word for leaving out what a set of nodes refutes.
const CUTS: &[u8] = b"cuts=yes";

/// The word for leaving out schedules that are not in order.
const ORDERED: &[u8] = b"ordered=yes";

/// The numbers of the search, as they are spelled.
#[derive(Clone, Copy)]
struct SpelledLimits<'a> {
    k: &'a [u8],
    max_s: &'a [u8],
    max_c: &'a [u8],
    conflicts: &'a [u8],
}

/// What was asked for. The root is a name, for the nodes are not known yet; there is one exactly
/// where the kind takes one.
#[derive(Clone, Copy, Debug)]
pub struct Asked {
    pub kind: Kind,
    pub limits: Limits,
    pub root: Option<Name>,
}

/// The kinds that a line may name: in version 2 that of given pairs too.
fn kinds_of(patterned: bool) -> &'static [Kind]
    ensures { result.now ≡ kinds_of patterned }
{
    if patterned {
        &[
            Kind::Broadcast,
            Kind::Gather,
            Kind::Allgather,
            Kind::Scatter,
            Kind::Alltoall,
            Kind::Reduce,
            Kind::Reducescatter,
            Kind::Allreduce,
            Kind::Custom,
        ]
    } else {
        &[
            Kind::Broadcast,
            Kind::Gather,
            Kind::Allgather,
            Kind::Scatter,
            Kind::Alltoall,
            Kind::Reduce,
            Kind::Reducescatter,
            Kind::Allreduce,
        ]
    }
}

/// The one of these kinds that has this name.
fn kind_among(kinds: &[Kind], word: &[u8]) -> Option<Kind>
    ensures { result ≡ find (λ kind. bytes_eq (word_of kind) word.now) kinds.now }
{
    kinds
        .iter()
        .copied()
        .find(|kind| kind.word().as_bytes() == word)
}

/// The kind with this name.
fn kind_named(patterned: bool, word: &[u8]) -> Option<Kind>
    ensures { result ≡ kind_named patterned word.now }
{
    kind_among(kinds_of(patterned), word)
}

/// Takes a token that is a key and the name of a kind.
fn next_kind(tokens: &mut Tokens<'_>, key: &[u8], patterned: bool) -> Result<Kind, ReportCode>
    ensures { Tells (λ kind. (kind, tokens.new.words)) result (next_keyed key.now (kind_named patterned) tokens.old.words) }
{
    let value = match next_value(tokens, key) {
        Ok(value) => value,
        Err(code) => return Err(code),
    };
    match kind_named(patterned, value) {
        Some(kind) => Ok(kind),
        None => Err(ReportCode::BadLine),
    }
}

/// Takes the numbers of the search.
fn limits_of<'a>(tokens: &mut Tokens<'a>) -> Result<SpelledLimits<'a>, ReportCode>
    ensures read { Tells (λ limits. (limits_of limits, tokens.new.words)) result (limits_from tokens.old.words) }
    ensures numbers { IfOk result AreNumbers }
{
    let k = keyed_digits(tokens, b"k=")?;
    let max_s = keyed_digits(tokens, b"steps=")?;
    let max_c = keyed_digits(tokens, b"chunks=")?;
    let conflicts = keyed_digits(tokens, b"conflicts=")?;
    Ok(SpelledLimits {
        k,
        max_s,
        max_c,
        conflicts,
    })
}

/// Takes the name of the root, where the kind takes one.
fn root_of(tokens: &mut Tokens<'_>, kind: Kind) -> Result<Option<Name>, ReportCode>
    ensures { Tells (λ root. (root, tokens.new.words)) result (root_from kind tokens.old.words) }
{
    if takes_root(kind) {
        Ok(Some(next_name(tokens, b"root=")?))
    } else {
        Ok(None)
    }
}

/// Takes the words for what may be left out, each where it stands, and then no other token.
fn pruning_of(tokens: &mut Tokens<'_>) -> Result<Pruning, ReportCode>
    ensures { Tells (λ pruning. pruning) result (pruning_from tokens.old.words) }
{
    let Some(first) = tokens.next_word() else {
        return Ok(Pruning::none());
    };
    if first != CUTS {
        if first != ORDERED {
            return Err(ReportCode::BadLine);
        }
        no_more(tokens)?;
        return Ok(Pruning {
            cuts: false,
            ordered: true,
        });
    }
    let Some(second) = tokens.next_word() else {
        return Ok(Pruning {
            cuts: true,
            ordered: false,
        });
    };
    if second != ORDERED {
        return Err(ReportCode::BadLine);
    }
    no_more(tokens)?;
    Ok(Pruning {
        cuts: true,
        ordered: true,
    })
}

/// The numbers, where each is in its range. Nothing is left out.
fn limits_in(spelled: &SpelledLimits<'_>) -> Option<Limits>
    requires { AreNumbers spelled.now }
    ensures { result ≡ (if are_limits (limits_of spelled.now) then Some (limits_of spelled.now) else None) }
{
    let k = number_in(spelled.k, 0, u64::from(MAX_K))?;
    let max_s = number_in(spelled.max_s, 1, u64::from(MAX_STEPS))?;
    let max_c = number_in(spelled.max_c, 1, u64::from(MAX_CHUNKS))?;
    let conflicts = number_in(spelled.conflicts, 1, u64::from(MAX_CONFLICTS))?;
    Some(Limits::new(k as u8, max_s as u8, max_c as u8, conflicts as u32))
}

/// The words of the search. In version 2 no other kind than that of given pairs may stand there.
fn asked_on(text: &[u8], line: Line, patterned: bool) -> Result<Asked, ReportCode>
    requires { IsIn text.now line }
    ensures { Tells asked_value result (asked_line patterned (Some (row_at text.now line))) }
{
    let mut tokens = tokens_on(text, line)?;
    fixed_word(&mut tokens, b"synth")?;
    let kind = next_kind(&mut tokens, b"collective=", patterned)?;
    let spelled = limits_of(&mut tokens)?;
    let root = root_of(&mut tokens, kind)?;
    let pruning = pruning_of(&mut tokens)?;
    let Some(limits) = limits_in(&spelled) else {
        return Err(ReportCode::Limits);
    };
    if patterned && !is_custom(kind) {
        return Err(ReportCode::Limits);
    }
    Ok(Asked {
        kind,
        limits: limits.with_pruning(pruning),
        root,
    })
}

/// Takes the line that says what was asked.
pub fn asked_part(lines: &mut Lines<'_>, patterned: bool) -> Result<Asked, ReportFault>
    requires room { HasRoom lines.old.place }
    ensures read { TellsAt (λ asked. (asked_value asked, lines.new.place)) result (line_part (asked_line patterned) lines.old.place) }
    ensures text { lines.new.text ≡ lines.old.text }
    ensures onward { OnOk result (Onward lines.old.place lines.new.place) }
{
    let text = lines.text();
    let line = next_line(lines)?;
    match asked_on(text, line, patterned) {
        Ok(asked) => Ok(asked),
        Err(code) => Err(ReportFault {
            code,
            line: line.number,
        }),
    }
}
