//! The topology that JSON stands for.

ghost use Rattle.std.specs.Prelude.{◌≡◌, true, false, ◌∷◌, [], ◌++◌, Some, option_map, IfOk, codes, length};
ghost use Rattle.text_lines.specs.Text.{text_of};
ghost use Rattle.serde_json.specs.{Data.Data, View.{view, items_view}};
ghost use Rattle.topology_text.specs.{Value.IsNamed, Spelling.spelling};
ghost use Rattle.json_values.specs.{Forms.says_word, TopologyForm.{version, link, group, custom, topology, chunks_read}, Appends.Appends, Json.value_of, TopologyJson.topology_text_in, Answer.{topology_of_json, Answers}};
ghost use Rattle.json_values.specs.inner.Chunks.{chunks_in};

use crate::fault::{JsonCode, JsonFault};
use crate::reading::text_in;
use crate::shape::{count_in, items_in, name_in};
use crate::token::Token;
use crate::tokens::{At, Behind, Each, Either, Fields, Lined, Lines, Nothing, Tokens};
use serde_json::Value;
use std::alloc::Global;
use text_lines::{Stop, push_word};
use topology_text::{NamedTopology, TopologyCode, read_topology};

/// The version of a topology: 1, or 2 where it has a pattern.
#[derive(Drop)]
pub struct Version;

impl Tokens for Version {
    ghost tokens = { λ _. version.read };

    fn push_tokens(&self, out: &mut Vec<u8>, value: &Value) -> Result<(), Stop<()>> {
        match count_in(value) {
            Some(1) => push_word(out, b" 1")?,
            Some(2) => push_word(out, b" 2")?,
            _ => return Err(Stop::Refused(())),
        }
        Ok(())
    }
}

/// The names of the nodes that a link leaves and enters.
#[tactic(auto, using(crate::proofs::Values::no_pair, crate::proofs::Values::pair_is))]
fn link_ends(value: &Value) -> Option<(&str, &str)>
    ensures { option_map (λ ends. (ends.0.now ++ 62 ∷ ends.1.now) ∷ []) result ≡ (link []).read (view value.now) }
{
    let items = items_in(value)?;
    if items.len() != 2 {
        return None;
    }
    Some((name_in(&items[0])?, name_in(&items[1])?))
}

/// The token of a link.
#[derive(Drop)]
struct LinkToken;

impl Tokens for LinkToken {
    ghost tokens = { λ _. (link []).read };

    fn push_tokens(&self, out: &mut Vec<u8>, value: &Value) -> Result<(), Stop<()>> {
        let Some((from, to)) = link_ends(value) else {
            return Err(Stop::Refused(()));
        };
        push_word(out, b" ")?;
        push_word(out, from.as_bytes())?;
        push_word(out, b">")?;
        push_word(out, to.as_bytes())?;
        Ok(())
    }
}

/// The line of a group.
#[derive(Drop)]
struct GroupLine;

impl Lines for GroupLine {
    ghost lines = { λ _. (group []).read };

    fn push_lines(&self, out: &mut Vec<u8>, value: &Value) -> Result<(), Stop<()>> {
        let tokens = (At("width", Token::Count), At("links", Each(LinkToken)));
        Fields(&[("links", true), ("width", true)], Lined("group", tokens)).push_lines(out, value)
    }
}

/// Appends the two lines of each chunk, of which there are as many before as after.
fn push_chunks(out: &mut Vec<u8>, before: &[Value], after: &[Value]) -> Result<(), Stop<()>>
    requires { length before.now ≡ length after.now }
    ensures { Appends result out.old.items out.new.items (option_map text_of (chunks_read 0 (items_view before.now) (items_view after.now))) }
{
    for chunk in 0..before.len() {
        let names = Behind(chunk as u64, Each(Token::Name));
        Lined("before", names).push_lines(out, &before[chunk])?;
        let names = Behind(chunk as u64, Each(Token::Name));
        Lined("after", names).push_lines(out, &after[chunk])?;
    }
    Ok(())
}

/// How many chunks a pattern has, and the two lines of each.
#[derive(Drop)]
struct Chunks;

impl Lines for Chunks {
    ghost lines = { λ _. chunks_in };

    fn push_lines(&self, out: &mut Vec<u8>, value: &Value) -> Result<(), Stop<()>> {
        let (Some(before), Some(after)) = (value.get("before"), value.get("after")) else {
            return Err(Stop::Refused(()));
        };
        let (Some(before), Some(after)) = (items_in(before), items_in(after)) else {
            return Err(Stop::Refused(()));
        };
        if before.len() != after.len() {
            return Err(Stop::Refused(()));
        }
        Lined("custom", Behind(before.len() as u64, Nothing)).push_lines(out, value)?;
        push_chunks(out, before, after)
    }
}

/// The lines of a pattern.
#[derive(Drop)]
struct CustomLines;

impl Lines for CustomLines {
    ghost lines = { λ _. (custom []).read };

    fn push_lines(&self, out: &mut Vec<u8>, value: &Value) -> Result<(), Stop<()>> {
        Fields(&[("after", true), ("before", true)], Chunks).push_lines(out, value)
    }
}

/// Whether a topology has a pattern: its version is 2.
fn has_pattern(value: &Value) -> bool
    ensures { result ≡ says_word (codes "version") version.read (codes "2") (view value.now) }
{
    match value.get("version") {
        Some(version) => count_in(version) == Some(2),
        None => false,
    }
}

/// The lines of a topology's text.
#[derive(Drop)]
pub struct TopologyLines;

impl Lines for TopologyLines {
    ghost lines = { λ _. (topology []).read };

    fn push_lines(&self, out: &mut Vec<u8>, value: &Value) -> Result<(), Stop<()>> {
        let patterned = has_pattern(value);
        let keys = [
            ("custom", patterned),
            ("groups", true),
            ("nodes", true),
            ("version", true),
        ];
        let names = Lined("nodes", At("nodes", Each(Token::Name)));
        let groups = At("groups", Each(GroupLine));
        let pattern = Either(patterned, At("custom", CustomLines), Nothing);
        let header = Lined("topology", At("version", Version));
        Fields(&keys, (header, (names, (groups, pattern)))).push_lines(out, value)
    }
}

/// The topology whose text the JSON stands for. `NotJson` comes exactly where the bytes are no
/// JSON, `BadShape` exactly where their value does not have the form, and `BadText` exactly where
/// `read_topology` refuses its text, with that line.
pub fn topology_from_json(alloc: Global, bytes: &[u8]) -> Result<NamedTopology, JsonFault>
    // What is read is JSON of the form, which stands for the text of the topology.
    ensures found { IfOk result (λ t. IsNamed t × (d : Data) × (value_of bytes.now ≡ Some d) × (topology_text_in d ≡ Some (spelling t))) }
    // Which check fails first, and on which line of the text.
    ensures exact { Answers result (topology_of_json bytes.now) }
{
    let text = match text_in(alloc, &TopologyLines, bytes) {
        Ok(text) => text,
        Err(code) => return Err(JsonFault { code, place: 0 }),
    };
    match read_topology(alloc, &text) {
        Ok(topology) => Ok(topology),
        Err(refused) => Err(if refused.code == TopologyCode::OutOfMemory {
            JsonFault {
                code: JsonCode::OutOfMemory,
                place: 0,
            }
        } else {
            JsonFault {
                code: JsonCode::BadText,
                place: refused.line,
            }
        }),
    }
}
