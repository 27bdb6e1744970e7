//! The line of the nodes' names, and what it shares with the lines of groups.

ghost use Rattle.std.specs.Prelude.{◌≡◌, ◌≤◌, [], length, Some, IfOk};
ghost use Rattle.text_lines.specs.{Text.words_of, Line.{IsIn, row_at}, Check.Gives};
ghost use Rattle.topology_text.specs.Reading.{has_empty, names_from, nodes_line};

use crate::fault::TopologyCode;
use crate::name::Name;
use indexmap::IndexSet;
use std::alloc::Global;
use text_lines::{Line, Stop, Tokens, tokens_of};

/// The most nodes that a topology has.
const NODES: usize = 16;

/// Whether two spaces stand in a row, or one at an end of the line.
pub(crate) fn has_empty_token(text: &[u8], line: Line) -> bool
    requires { IsIn text.now line }
    ensures { result ≡ has_empty (words_of (row_at text.now line).bytes) }
{
    let mut tokens = tokens_of(text, line);
    while let Some(word) = tokens.next_word() {
        if word.is_empty() {
            return true;
        }
    }
    false
}

fn names_of(alloc: Global, tokens: &mut Tokens<'_>) -> Result<IndexSet<Name>, Stop<TopologyCode>>
    ensures read { Gives (λ s. s.keys) result (names_from [] tokens.old.words) }
    ensures few { IfOk result (λ s. length s.keys ≤ 16) }
{
    let mut names = IndexSet::new(alloc);
    while let Some(word) = tokens.next_word() {
        if names.len() >= NODES {
            return Err(Stop::Refused(TopologyCode::TooManyNodes));
        }
        let Some(name) = Name::of_bytes(word) else {
            return Err(Stop::Refused(TopologyCode::BadName));
        };
        if !names.insert(name)? {
            return Err(Stop::Refused(TopologyCode::NameTwice));
        }
    }
    Ok(names)
}

pub(crate) fn nodes_on(
    alloc: Global,
    text: &[u8],
    line: Line,
) -> Result<IndexSet<Name>, Stop<TopologyCode>>
    requires { IsIn text.now line }
    ensures read { Gives (λ s. s.keys) result (nodes_line (Some (row_at text.now line))) }
    ensures few { IfOk result (λ s. length s.keys ≤ 16) }
{
    if !line.whole {
        return Err(Stop::Refused(TopologyCode::BadLine));
    }
    let bytes = &text[line.start..line.end];
    if bytes == b"nodes".as_slice() {
        return Err(Stop::Refused(TopologyCode::NoNodes));
    }
    if !bytes.starts_with(b"nodes ") || has_empty_token(text, line) {
        return Err(Stop::Refused(TopologyCode::BadLine));
    }
    let mut tokens = tokens_of(text, line);
    let _ = tokens.next_word();
    names_of(alloc, &mut tokens)
}
