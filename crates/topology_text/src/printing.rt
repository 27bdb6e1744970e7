//! The one spelling of a topology.

ghost use Rattle.std.specs.{Prelude.{◌≡◌, ◌<◌, ◌++◌, ◌∷◌, [], Ok, Some, map, OnOk, OnErr, IfOk}, Io.StartsWith};
ghost use Rattle.text_lines.specs.Text.{fields, line, text_of};
ghost use Rattle.topology_text.specs.{Value.IsNamed, Spelling.{link_word, header_words, nodes_words, group_words, holder_words, custom_lines, spelling}, Reading.topology_of};

use crate::name::Name;
use crate::named_topology::NamedTopology;
use crate::names_printing::{push_node_field, push_node_name};
use collective_spec::Pattern;
use schedule::{Group, Placement};
use std::alloc::{AllocError, Global};
use text_lines::{push_number, push_word};

fn push_names(out: &mut Vec<u8>, names: &[Name]) -> Result<(), AllocError>
    ensures { OnOk result (out.new.items ≡ out.old.items ++ fields names.now) }
{
    for name in names {
        push_word(out, b" ")?;
        push_word(out, name.as_bytes())?;
    }
    Ok(())
}

fn push_links(out: &mut Vec<u8>, names: &[Name], links: &[(u8, u8)]) -> Result<(), AllocError>
    ensures { OnOk result (out.new.items ≡ out.old.items ++ fields (map (link_word names.now) links.now)) }
{
    for (from, to) in links {
        push_node_field(out, names, *from)?;
        push_word(out, b">")?;
        push_node_name(out, names, *to)?;
    }
    Ok(())
}

#[tactic(auto, using(crate::proofs::Printed::group_printed))]
fn push_group(out: &mut Vec<u8>, names: &[Name], group: &Group) -> Result<(), AllocError>
    ensures { OnOk result (out.new.items ≡ out.old.items ++ line (group_words names.now group.now)) }
{
    push_word(out, b"group ")?;
    push_number(out, u64::from(group.width()))?;
    push_links(out, names, group.links())?;
    push_word(out, b"\n")?;
    Ok(())
}

/// Appends the lines of the header and of the nodes.
#[tactic(auto, using(crate::proofs::Printed::front_printed))]
fn push_front(out: &mut Vec<u8>, value: &NamedTopology) -> Result<(), AllocError>
    ensures { OnOk result (out.new.items ≡ out.old.items ++ text_of (header_words value.now.custom ∷ nodes_words value.now.names ∷ [])) }
{
    let front = match value.custom() {
        None => b"topology 1\nnodes".as_slice(),
        Some(_) => b"topology 2\nnodes".as_slice(),
    };
    push_word(out, front)?;
    push_names(out, value.names())?;
    push_word(out, b"\n")?;
    Ok(())
}

#[tactic(auto, using(crate::proofs::Printed::holders_printed))]
fn push_holders(
    out: &mut Vec<u8>,
    names: &[Name],
    word: &[u8],
    held: &Placement,
    chunk: u8,
) -> Result<(), AllocError>
    requires { chunk < held.now.chunks }
    ensures { OnOk result (out.new.items ≡ out.old.items ++ line (holder_words names.now word.now held.now chunk)) }
{
    push_word(out, word)?;
    push_word(out, b" ")?;
    push_number(out, u64::from(chunk))?;
    for node in 0..held.nodes() {
        if held.holds(u16::from(chunk), node) {
            push_node_field(out, names, node)?;
        }
    }
    push_word(out, b"\n")?;
    Ok(())
}

fn push_pattern(out: &mut Vec<u8>, names: &[Name], pattern: &Pattern) -> Result<(), AllocError>
    ensures { OnOk result (out.new.items ≡ out.old.items ++ text_of (custom_lines names.now (Some pattern.now))) }
{
    push_word(out, b"custom ")?;
    push_number(out, u64::from(pattern.base()))?;
    push_word(out, b"\n")?;
    for chunk in 0..pattern.base() {
        push_holders(out, names, b"before", pattern.before(), chunk)?;
        push_holders(out, names, b"after", pattern.after(), chunk)?;
    }
    Ok(())
}

/// Appends the lines of the groups.
fn push_groups(out: &mut Vec<u8>, names: &[Name], groups: &[Group]) -> Result<(), AllocError>
    ensures { OnOk result (out.new.items ≡ out.old.items ++ text_of (map (group_words names.now) groups.now)) }
{
    for group in groups {
        push_group(out, names, group)?;
    }
    Ok(())
}

/// The spelling of the topology.
#[tactic(auto, using(crate::proofs::Printed::topology_printed, crate::proofs::Printed::plain_printed))]
fn spelled(alloc: Global, value: &NamedTopology) -> Result<Vec<u8>, AllocError>
    ensures spelled { IfOk result (λ v. v.items ≡ spelling value.now) }
    ensures limits { IsNamed value.now }
{
    let names = value.names();
    let mut out = Vec::new(alloc);
    push_front(&mut out, value)?;
    push_groups(&mut out, names, value.topology().groups())?;
    let Some(pattern) = value.custom() else {
        return Ok(out);
    };
    push_pattern(&mut out, names, pattern)?;
    Ok(out)
}

/// Appends the spelling of the topology, as a report has it among other lines. An `Err` comes only
/// where memory runs out; then what stood there before still stands in front.
#[tactic(auto, using(crate::proofs::Printed::kept_same))]
pub fn push_topology(out: &mut Vec<u8>, value: &NamedTopology) -> Result<(), AllocError>
    ensures appended { OnOk result (out.new.items ≡ out.old.items ++ spelling value.now) }
    ensures kept { OnErr result (StartsWith out.new.items out.old.items) }
    ensures limits { IsNamed value.now }
{
    let text = spelled(*out.allocator(), value)?;
    push_word(out, &text)
}

/// The one spelling of the topology. An `Err` comes only where memory runs out.
#[tactic(auto, using(crate::proofs::Laws::all_again))]
pub fn print_topology(alloc: Global, value: &NamedTopology) -> Result<Vec<u8>, AllocError>
    ensures spelled { IfOk result (λ v. v.items ≡ spelling value.now) }
    // Reading it gives the value back.
    ensures read_back { IfOk result (λ v. topology_of v.items ≡ Ok value.now) }
{
    Ok(spelled(alloc, value)?)
}
