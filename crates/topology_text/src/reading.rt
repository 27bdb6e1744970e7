//! Topologies that a text spells.

ghost use Rattle.std.specs.Prelude.{◌≡◌, ◌≢◌, ◌+◌, ◌^◌, ◌<◌, ◌≤◌, Ok, OnOk, IfOk, IfErr};
ghost use Rattle.text_lines.specs.Check.{Gives};
ghost use Rattle.topology_text.specs.{declared.fault.TopologyCode.TopologyCode, Value.{NamedTopologyValue, IsNamed}, Spelling.spelling, Names.AreNames, Reading.{named_at, topology_at, topology_of}, First.FailsFirstAt, Answer.Answers};

use crate::fault::{TopologyCode, TopologyFault};
use crate::name::Name;
use crate::named_topology::NamedTopology;
use crate::parts::{groups_part, header_part, nodes_part};
use crate::pattern::pattern_part;
use indexmap::IndexSet;
use std::alloc::Global;
use text_lines::{Lines, Stop};

/// Takes what follows the names: the groups end at the first line that doesn't begin `group `, and
/// in version 2 the pattern follows.
#[tactic(auto, unfolding(crate::specs::Reading::named_at))]
fn named_part(
    alloc: Global,
    patterned: bool,
    names: &IndexSet<Name>,
    lines: &mut Lines<'_>,
) -> Result<NamedTopology, Stop<(TopologyCode, u32)>>
    requires names { AreNames names.now.keys }
    requires room { lines.old.place.number + 290 < 2 ^ 32 }
    ensures read { Gives (λ t. (t, lines.new.place)) result (named_at patterned names.now.keys lines.old.place) }
    ensures text { lines.new.text ≡ lines.old.text }
    ensures moved { OnOk result (lines.new.place.number ≤ lines.old.place.number + 289) }
{
    let groups = groups_part(alloc, names, lines)?;
    let custom = pattern_part(alloc, patterned, names, lines)?;
    Ok(NamedTopology::from_parts(alloc, names, groups, custom)?)
}

/// Takes a topology off the front of the lines.
#[tactic(auto, unfolding(crate::specs::Reading::topology_at, crate::specs::Reading::named_at))]
pub fn topology_part(
    alloc: Global,
    lines: &mut Lines<'_>,
) -> Result<NamedTopology, Stop<(TopologyCode, u32)>>
    requires room { lines.old.place.number + 292 < 2 ^ 32 }
    ensures read { Gives (λ t. (t, lines.new.place)) result (topology_at lines.old.place) }
    ensures text { lines.new.text ≡ lines.old.text }
    ensures moved { OnOk result (lines.new.place.number ≤ lines.old.place.number + 291) }
{
    let patterned = header_part(lines).map_err(Stop::Refused)?;
    let names = nodes_part(alloc, lines)?;
    named_part(alloc, patterned, &names, lines)
}

#[tactic(auto, unfolding(crate::specs::Reading::topology_of))]
fn whole_topology(alloc: Global, text: &[u8]) -> Result<NamedTopology, Stop<(TopologyCode, u32)>>
    ensures { Gives (λ t. t) result (topology_of text.now) }
{
    let mut lines = Lines::new(text);
    let topology = topology_part(alloc, &mut lines)?;
    match lines.peek() {
        None => Ok(topology),
        Some(line) => Err(Stop::Refused((TopologyCode::BadLine, line.number))),
    }
}

fn answered(alloc: Global, bytes: &[u8]) -> Result<NamedTopology, TopologyFault>
    ensures { Answers result (topology_of bytes.now) }
{
    match whole_topology(alloc, bytes) {
        Ok(topology) => Ok(topology),
        Err(Stop::Memory) => Err(TopologyFault {
            code: TopologyCode::OutOfMemory,
            line: 0,
        }),
        Err(Stop::Refused((code, line))) => Err(TopologyFault { code, line }),
    }
}

/// The topology that the text spells, all of the text. A fault names the first check that fails,
/// and its line.
#[tactic(auto, using(crate::proofs::Laws::is_found, crate::proofs::Laws::only_found, crate::proofs::FirstFault::blames))]
pub fn read_topology(alloc: Global, bytes: &[u8]) -> Result<NamedTopology, TopologyFault>
    // What is read is spelled so.
    ensures found { IfOk result (λ t. IsNamed t × (bytes.now ≡ spelling t)) }
    // What is spelled so is read, unless memory runs out.
    ensures only { (t : NamedTopologyValue) → IsNamed t → bytes.now ≡ spelling t → Answers result (Ok t) }
    // Which check fails first, and on which line.
    ensures exact { Answers result (topology_of bytes.now) }
    // Up to that line the text could still be a topology's, and with it no longer.
    ensures first { IfErr result (λ fault. fault.code ≢ TopologyCode.OutOfMemory → FailsFirstAt bytes.now fault.line) }
{
    answered(alloc, bytes)
}
