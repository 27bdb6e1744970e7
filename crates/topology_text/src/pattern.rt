//! The pattern of a topology text, taken off the front of the lines.

ghost use Rattle.std.specs.Prelude.{◌≡◌, ◌+◌, ◌*◌, ◌^◌, ◌<◌, ◌≤◌, ◌++◌, [], length, IfOk, IfSome, OnOk};
ghost use Rattle.text_lines.specs.Check.{Gives, line_part, Tells};
ghost use Rattle.schedule.specs.Placed.{IsPlacement};
ghost use Rattle.collective_spec.specs.Patterns.{IsPattern};
ghost use Rattle.topology_text.specs.Reading.{custom_line, holders_line, row_of_pairs, holders_at, pattern_at, pattern_of};

use crate::fault::TopologyCode;
use crate::name::Name;
use crate::pattern_lines::{custom_on, holders_on};
use collective_spec::Pattern;
use indexmap::IndexSet;
use schedule::Placement;
use std::alloc::{AllocError, Global};
use text_lines::{Lines, Stop};

fn custom_part(lines: &mut Lines<'_>) -> Result<u8, (TopologyCode, u32)>
    requires room { lines.old.place.number + 1 < 2 ^ 32 }
    ensures read { Tells (λ base. (base, lines.new.place)) result (line_part custom_line lines.old.place) }
    ensures text { lines.new.text ≡ lines.old.text }
{
    let text = lines.text();
    let number = lines.number();
    match lines.next() {
        None => Err((TopologyCode::BadLine, number)),
        Some(line) => custom_on(text, line).map_err(|code| (code, number)),
    }
}

fn holders_part(
    alloc: Global,
    names: &IndexSet<Name>,
    word: &[u8],
    chunk: u8,
    lines: &mut Lines<'_>,
) -> Result<Vec<u8>, Stop<(TopologyCode, u32)>>
    requires few { length names.now.keys ≤ 16 }
    requires room { lines.old.place.number + 1 < 2 ^ 32 }
    ensures read { Gives (λ v. (v.items, lines.new.place)) result (line_part (holders_line names.now.keys word.now chunk) lines.old.place) }
    ensures text { lines.new.text ≡ lines.old.text }
    ensures moved { OnOk result (lines.new.place.number ≡ lines.old.place.number + 1) }
{
    let text = lines.text();
    let number = lines.number();
    let Some(line) = lines.next() else {
        return Err(Stop::Refused((TopologyCode::BadLine, number)));
    };
    match holders_on(alloc, text, line, names, word, chunk) {
        Ok(nodes) => Ok(nodes),
        Err(Stop::Memory) => Err(Stop::Memory),
        Err(Stop::Refused(code)) => Err(Stop::Refused((code, number))),
    }
}

/// Appends the pairs of one chunk and the nodes that hold it.
fn push_row(pairs: &mut Vec<(u16, u8)>, chunk: u8, nodes: &[u8]) -> Result<(), AllocError>
    ensures { OnOk result (pairs.new.items ≡ pairs.old.items ++ row_of_pairs chunk nodes.now) }
{
    for node in nodes {
        pairs.push((u16::from(chunk), *node))?;
    }
    Ok(())
}

/// The pairs of a chunk and a node that were read, before and after.
#[derive(Drop)]
struct PairsRead {
    before: Vec<(u16, u8)>,
    after: Vec<(u16, u8)>,
}

/// Takes the two lines of each of so many chunks.
fn pairs_part(
    alloc: Global,
    names: &IndexSet<Name>,
    base: u8,
    lines: &mut Lines<'_>,
) -> Result<PairsRead, Stop<(TopologyCode, u32)>>
    requires few { length names.now.keys ≤ 16 }
    requires room { lines.old.place.number + 2 * base < 2 ^ 32 }
    ensures read { Gives (λ found. (record { before = found.before.items; after = found.after.items }, lines.new.place)) result (holders_at names.now.keys base 0 (record { before = []; after = [] }) lines.old.place) }
    ensures text { lines.new.text ≡ lines.old.text }
    ensures moved { OnOk result (lines.new.place.number ≡ lines.old.place.number + 2 * base) }
{
    let mut before = Vec::new(alloc);
    let mut after = Vec::new(alloc);
    for chunk in 0..base {
        let holders = holders_part(alloc, names, b"before", chunk, lines)?;
        push_row(&mut before, chunk, &holders)?;
        let holders = holders_part(alloc, names, b"after", chunk, lines)?;
        push_row(&mut after, chunk, &holders)?;
    }
    Ok(PairsRead { before, after })
}

/// The placement of these pairs, each in range and in the order of a placement.
fn placement_of(
    alloc: Global,
    chunks: u8,
    nodes: u8,
    pairs: &[(u16, u8)],
) -> Result<Placement, AllocError>
    requires { IsPlacement (record { chunks = chunks; nodes = nodes; pairs = pairs.now }) }
    ensures { IfOk result (λ p. p ≡ record { chunks = chunks; nodes = nodes; pairs = pairs.now }) }
{
    let mut placement = Placement::empty(alloc, u16::from(chunks), nodes)?;
    for (chunk, node) in pairs {
        placement.insert(*chunk, *node);
    }
    Ok(placement)
}

/// The pattern of these pairs.
fn pattern_of(alloc: Global, base: u8, nodes: u8, found: &PairsRead) -> Result<Pattern, AllocError>
    requires { IsPattern nodes (pattern_of base nodes (record { before = found.now.before.items; after = found.now.after.items })) }
    ensures { IfOk result (λ p. p ≡ pattern_of base nodes (record { before = found.now.before.items; after = found.now.after.items })) }
{
    let before = placement_of(alloc, base, nodes, &found.before)?;
    let after = placement_of(alloc, base, nodes, &found.after)?;
    Ok(Pattern::new(base, before, after))
}

/// Takes the pattern, where the text is `patterned`, as one of version 2 is; where it is not,
/// nothing is taken.
#[tactic(auto, unfolding(crate::specs::Reading::pattern_at))]
pub fn pattern_part(
    alloc: Global,
    patterned: bool,
    names: &IndexSet<Name>,
    lines: &mut Lines<'_>,
) -> Result<Option<Pattern>, Stop<(TopologyCode, u32)>>
    requires few { length names.now.keys ≤ 16 }
    requires room { lines.old.place.number + 33 < 2 ^ 32 }
    ensures read { Gives (λ pattern. (pattern, lines.new.place)) result (pattern_at patterned names.now.keys lines.old.place) }
    ensures limits { IfOk result (λ pattern. IfSome pattern (IsPattern (length names.now.keys))) }
    ensures text { lines.new.text ≡ lines.old.text }
    ensures moved { OnOk result (lines.new.place.number ≤ lines.old.place.number + 33) }
{
    if !patterned {
        return Ok(None);
    }
    let base = custom_part(lines).map_err(Stop::Refused)?;
    let found = pairs_part(alloc, names, base, lines)?;
    Ok(Some(pattern_of(alloc, base, names.len() as u8, &found)?))
}
