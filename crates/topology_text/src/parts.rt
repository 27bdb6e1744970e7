//! The header, the nodes and the groups of a topology text, each taken off the front of the lines.

ghost use Rattle.std.specs.Prelude.{◌≡◌, ◌+◌, ◌^◌, ◌<◌, ◌≤◌, length, OnOk, IfOk};
ghost use Rattle.text_lines.specs.Check.{Gives, line_part, Tells};
ghost use Rattle.topology_text.specs.Reading.{version_of, header_line, nodes_line, groups_at};

use crate::fault::TopologyCode;
use crate::group_line::group_on;
use crate::name::Name;
use crate::nodes_line::nodes_on;
use indexmap::IndexSet;
use schedule::Group;
use std::alloc::Global;
use text_lines::{Lines, Stop};

fn version_of(bytes: &[u8]) -> Option<bool>
    ensures { result ≡ version_of bytes.now }
{
    if bytes == b"topology 1".as_slice() {
        return Some(false);
    }
    if bytes == b"topology 2".as_slice() {
        return Some(true);
    }
    None
}

/// Takes the header's line, and tells whether a pattern follows the groups, as in version 2. A
/// refusal comes with the number of its line.
pub fn header_part(lines: &mut Lines<'_>) -> Result<bool, (TopologyCode, u32)>
    requires room { lines.old.place.number + 1 < 2 ^ 32 }
    ensures read { Tells (λ patterned. (patterned, lines.new.place)) result (line_part header_line lines.old.place) }
    ensures text { lines.new.text ≡ lines.old.text }
{
    let text = lines.text();
    let refused = Err((TopologyCode::BadHeader, lines.number()));
    let Some(line) = lines.next() else {
        return refused;
    };
    if !line.whole {
        return refused;
    }
    match version_of(&text[line.start..line.end]) {
        Some(patterned) => Ok(patterned),
        None => refused,
    }
}

/// Takes the line of the nodes, and gives their names in the order of the line.
pub fn nodes_part(
    alloc: Global,
    lines: &mut Lines<'_>,
) -> Result<IndexSet<Name>, Stop<(TopologyCode, u32)>>
    requires room { lines.old.place.number + 1 < 2 ^ 32 }
    ensures read { Gives (λ s. (s.keys, lines.new.place)) result (line_part nodes_line lines.old.place) }
    ensures few { IfOk result (λ s. length s.keys ≤ 16) }
    ensures text { lines.new.text ≡ lines.old.text }
{
    let text = lines.text();
    let number = lines.number();
    let Some(line) = lines.next() else {
        return Err(Stop::Refused((TopologyCode::NoNodes, number)));
    };
    match nodes_on(alloc, text, line) {
        Ok(names) => Ok(names),
        Err(Stop::Memory) => Err(Stop::Memory),
        Err(Stop::Refused(code)) => Err(Stop::Refused((code, number))),
    }
}

/// Takes the lines that begin `group `, up to the first that doesn't.
pub fn groups_part(
    alloc: Global,
    names: &IndexSet<Name>,
    lines: &mut Lines<'_>,
) -> Result<Vec<Group>, Stop<(TopologyCode, u32)>>
    requires few { length names.now.keys ≤ 16 }
    requires room { lines.old.place.number + 257 < 2 ^ 32 }
    ensures read { Gives (λ v. (v.items, lines.new.place)) result (groups_at names.now.keys lines.old.place) }
    ensures text { lines.new.text ≡ lines.old.text }
    ensures moved { OnOk result (lines.new.place.number ≤ lines.old.place.number + 256) }
{
    let text = lines.text();
    let mut groups = Vec::new(alloc);
    while let Some(line) = lines.next_with(b"group ") {
        let group = match group_on(alloc, text, line, names, groups.len()) {
            Ok(group) => group,
            Err(Stop::Memory) => return Err(Stop::Memory),
            Err(Stop::Refused(code)) => return Err(Stop::Refused((code, line.number))),
        };
        groups.push(group)?;
    }
    Ok(groups)
}
