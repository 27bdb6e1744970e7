//! The lines of a pattern: its number of chunks, and who holds a chunk.

ghost use Rattle.std.specs.{Prelude.{◌≡◌, ◌≤◌, ◌==◌, [], length, Some, bytes_eq, decimal, nat_lt}, List.list_all};
ghost use Rattle.text_lines.specs.{Text.words_of, Line.{IsIn, row_at}, Check.Gives};
ghost use Rattle.topology_text.specs.Reading.{custom_line, holders_from, has_front, holders_line};

use crate::fault::TopologyCode;
use crate::group_line::one_to_16;
use crate::link_word::node_of;
use crate::name::Name;
use crate::nodes_line::has_empty_token;
use indexmap::IndexSet;
use std::alloc::Global;
use text_lines::{Line, Stop, Tokens, read_number, tokens_of};

fn has_two_tokens(text: &[u8], line: Line) -> bool
    requires { IsIn text.now line }
    ensures { result ≡ (length (words_of (row_at text.now line).bytes) == 2) }
{
    let mut tokens = tokens_of(text, line);
    tokens.next_word().is_some() && tokens.next_word().is_some() && tokens.next_word().is_none()
}

/// Reads the line with the number of the pattern's chunks.
pub(crate) fn custom_on(text: &[u8], line: Line) -> Result<u8, TopologyCode>
    requires { IsIn text.now line }
    ensures { result ≡ custom_line (Some (row_at text.now line)) }
{
    let begins = text[line.start..line.end].starts_with(b"custom ");
    if !line.whole || !begins || !has_two_tokens(text, line) {
        return Err(TopologyCode::BadLine);
    }
    let mut tokens = tokens_of(text, line);
    let _ = tokens.next_word();
    one_to_16(tokens.next_word().unwrap_or(&[]), TopologyCode::BaseRange)
}

/// Whether the word is the number in decimal.
fn is_number(word: &[u8], number: u8) -> bool
    ensures { result ≡ bytes_eq (decimal number) word.now }
{
    match read_number(word, u64::from(u8::MAX)) {
        Some(read) => read == u64::from(number),
        None => false,
    }
}

/// Whether the line begins with the word and the number of the chunk.
fn has_front(text: &[u8], line: Line, word: &[u8], chunk: u8) -> bool
    requires { IsIn text.now line }
    ensures { result ≡ has_front word.now (decimal chunk) (words_of (row_at text.now line).bytes) }
{
    let mut tokens = tokens_of(text, line);
    let Some(first) = tokens.next_word() else {
        return false;
    };
    let Some(second) = tokens.next_word() else {
        return false;
    };
    word == first && is_number(second, chunk)
}

/// Whether the node is behind all that were named before it, which are 16 at most.
fn comes_last(nodes: &[u8], node: u8) -> bool
    ensures { result ≡ list_all (λ other. nat_lt other node) nodes.now }
{
    nodes.iter().all(|other| *other < node)
}

fn holders_of(
    alloc: Global,
    names: &IndexSet<Name>,
    tokens: &mut Tokens<'_>,
) -> Result<Vec<u8>, Stop<TopologyCode>>
    requires { length names.now.keys ≤ 16 }
    ensures { Gives (λ v. v.items) result (holders_from names.now.keys [] tokens.old.words) }
{
    let mut nodes = Vec::new(alloc);
    while let Some(word) = tokens.next_word() {
        let Some(node) = node_of(names, word) else {
            return Err(Stop::Refused(TopologyCode::UnknownNode));
        };
        if !comes_last(&nodes, node) {
            return Err(Stop::Refused(TopologyCode::NameOrder));
        }
        nodes.push(node)?;
    }
    Ok(nodes)
}

/// Reads the line of the nodes that hold a chunk, which begins with this word and the number of the
/// chunk.
pub(crate) fn holders_on(
    alloc: Global,
    text: &[u8],
    line: Line,
    names: &IndexSet<Name>,
    word: &[u8],
    chunk: u8,
) -> Result<Vec<u8>, Stop<TopologyCode>>
    requires span { IsIn text.now line }
    requires few { length names.now.keys ≤ 16 }
    ensures { Gives (λ v. v.items) result (holders_line names.now.keys word.now chunk (Some (row_at text.now line))) }
{
    if !line.whole || !has_front(text, line, word, chunk) || has_empty_token(text, line) {
        return Err(Stop::Refused(TopologyCode::BadLine));
    }
    let mut tokens = tokens_of(text, line);
    let _ = tokens.next_word();
    let _ = tokens.next_word();
    holders_of(alloc, names, &mut tokens)
}
