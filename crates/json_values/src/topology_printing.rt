//! A topology as JSON.

ghost use Rattle.std.specs.Prelude.{◌≡◌, ◌<◌, ◌≤◌, Ok, codes, map, if◌then◌else◌, is_some, option_map, unwrap_or, IfOk};
ghost use Rattle.topology_text.specs.Value.{IsNamed};
ghost use Rattle.serde_json.specs.{Data.{string, no_members, put}, View.{view, members_view}};
ghost use Rattle.json_values.specs.{Json.{printed, array_of}, TopologyForm.{link as link_form, group as group_form, custom as custom_form}, TopologyJson.topology_json, inner.Holders.{held as held_by, holders_json, placement_json}};
ghost use Rattle.json_values.specs.Answer.{topology_of_json};

use crate::names::{name_text, node_text};
use collective_spec::Pattern;
use schedule::{Group, Placement};
use serde_json::{Map, Value, json, put};
use std::alloc::{AllocError, Global};
use topology_text::{Name, NamedTopology};

fn link_json(alloc: Global, names: &[Name], from: u8, to: u8) -> Result<Value, AllocError>
    ensures { IfOk result (λ v. view v ≡ (link_form names.now).json (from, to)) }
{
    let from = node_text(names, from);
    let to = node_text(names, to);
    json!(in alloc; [from, to])
}

fn links_json(alloc: Global, names: &[Name], links: &[(u8, u8)]) -> Result<Value, AllocError>
    ensures { IfOk result (λ v. view v ≡ array_of (map (link_form names.now).json links.now)) }
{
    let mut list = Vec::new(alloc);
    for (from, to) in links {
        list.push(link_json(alloc, names, *from, *to)?)?;
    }
    Ok(Value::Array(list))
}

fn group_json(alloc: Global, names: &[Name], group: &Group) -> Result<Value, AllocError>
    ensures { IfOk result (λ v. view v ≡ (group_form names.now).json group.now) }
{
    let links = links_json(alloc, names, group.links())?;
    let width = group.width();
    json!(in alloc; {"links": links, "width": width})
}

fn groups_json(alloc: Global, names: &[Name], groups: &[Group]) -> Result<Value, AllocError>
    ensures { IfOk result (λ v. view v ≡ array_of (map (group_form names.now).json groups.now)) }
{
    let mut list = Vec::new(alloc);
    for group in groups {
        list.push(group_json(alloc, names, group)?)?;
    }
    Ok(Value::Array(list))
}

fn names_json(alloc: Global, names: &[Name]) -> Result<Value, AllocError>
    ensures { IfOk result (λ v. view v ≡ array_of (map string names.now)) }
{
    let mut list = Vec::new(alloc);
    for name in names {
        list.push(Value::try_from_str(alloc, name_text(name))?)?;
    }
    Ok(Value::Array(list))
}

fn holders_json(
    alloc: Global,
    names: &[Name],
    held: &Placement,
    chunk: u8,
) -> Result<Value, AllocError>
    requires chunk { chunk < held.now.chunks }
    ensures { IfOk result (λ v. view v ≡ holders_json names.now (held_by held.now chunk)) }
{
    let mut list = Vec::new(alloc);
    for node in 0..held.nodes() {
        if held.holds(u16::from(chunk), node) {
            list.push(Value::try_from_str(alloc, node_text(names, node))?)?;
        }
    }
    Ok(Value::Array(list))
}

fn placement_json(
    alloc: Global,
    names: &[Name],
    base: u8,
    held: &Placement,
) -> Result<Value, AllocError>
    requires chunks { base ≤ held.now.chunks }
    ensures { IfOk result (λ v. view v ≡ placement_json names.now base held.now) }
{
    let mut list = Vec::new(alloc);
    for chunk in 0..base {
        list.push(holders_json(alloc, names, held, chunk)?)?;
    }
    Ok(Value::Array(list))
}

fn custom_json(alloc: Global, names: &[Name], pattern: &Pattern) -> Result<Value, AllocError>
    ensures { IfOk result (λ v. view v ≡ (custom_form names.now).json pattern.now) }
{
    let base = pattern.base();
    let after = placement_json(alloc, names, base, pattern.after())?;
    let before = placement_json(alloc, names, base, pattern.before())?;
    json!(in alloc; {"after": after, "before": before})
}

/// The member of the pattern, where there is one.
fn custom_members(alloc: Global, value: &NamedTopology) -> Result<Map<String, Value>, AllocError>
    ensures { IfOk result (λ m. members_view m.entries ≡ unwrap_or (option_map (λ p. put (codes "custom") ((custom_form value.now.names).json p) no_members) value.now.custom) no_members) }
{
    let mut members = Map::new(alloc);
    if let Some(pattern) = value.custom() {
        let custom = custom_json(alloc, value.names(), pattern)?;
        put(&mut members, alloc, "custom", custom)?;
    }
    Ok(members)
}

/// The version of a topology's JSON.
fn version(value: &NamedTopology) -> u32
    ensures { result ≡ if is_some value.now.custom then 2 else 1 }
{
    match value.custom() {
        Some(_) => 2,
        None => 1,
    }
}

/// The topology as a value of JSON. An `Err` comes only where memory runs out.
pub fn topology_value(alloc: Global, value: &NamedTopology) -> Result<Value, AllocError>
    ensures json { IfOk result (λ v. view v ≡ topology_json value.now) }
    ensures limits { IsNamed value.now }
{
    let groups = groups_json(alloc, value.names(), value.topology().groups())?;
    let nodes = names_json(alloc, value.names())?;
    let mut members = custom_members(alloc, value)?;
    put(&mut members, alloc, "groups", groups)?;
    put(&mut members, alloc, "nodes", nodes)?;
    put(&mut members, alloc, "version", Value::from(version(value)))?;
    Ok(Value::Object(members))
}

/// The topology as JSON without spaces, the keys of each object ascending, with a line feed behind.
/// An `Err` comes only where memory runs out.
pub fn topology_json(alloc: Global, value: &NamedTopology) -> Result<Vec<u8>, AllocError>
    ensures printed { IfOk result (λ v. v.items ≡ printed (topology_json value.now)) }
    // Reading it gives the value back.
    ensures read_back { IfOk result (λ v. topology_of_json v.items ≡ Ok value.now) }
{
    let mut out = topology_value(alloc, value)?.to_vec(alloc)?;
    out.push(b'\n')?;
    Ok(out)
}
