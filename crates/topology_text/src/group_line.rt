//! The line of one group.

ghost use Rattle.std.specs.Prelude.{◌≡◌, ◌<◌, ◌≤◌, [], length, Some, IfOk, nat_le};
ghost use Rattle.text_lines.specs.{Text.words_of, Line.{IsIn, row_at}, Check.Gives};
ghost use Rattle.topology_text.specs.Reading.{links_from, one_to_16, group_line};

use crate::fault::TopologyCode;
use crate::link_word::link_of;
use crate::name::Name;
use crate::nodes_line::has_empty_token;
use indexmap::IndexSet;
use schedule::{Group, has_link};
use std::alloc::Global;
use text_lines::{Line, Stop, Tokens, read_number, tokens_of};

/// The most groups that a topology has.
const GROUPS: usize = 256;

fn has_three_tokens(text: &[u8], line: Line) -> bool
    requires { IsIn text.now line }
    ensures { result ≡ nat_le 3 (length (words_of (row_at text.now line).bytes)) }
{
    let mut tokens = tokens_of(text, line);
    let _ = tokens.next_word();
    let _ = tokens.next_word();
    tokens.next_word().is_some()
}

fn links_of(
    alloc: Global,
    names: &IndexSet<Name>,
    tokens: &mut Tokens<'_>,
) -> Result<Vec<(u8, u8)>, Stop<TopologyCode>>
    requires { length names.now.keys ≤ 16 }
    ensures { Gives (λ v. v.items) result (links_from names.now.keys [] tokens.old.words) }
{
    let mut links = Vec::new(alloc);
    while let Some(word) = tokens.next_word() {
        let link = link_of(names, word).map_err(Stop::Refused)?;
        if has_link(&links, link) {
            return Err(Stop::Refused(TopologyCode::LinkTwice));
        }
        links.push(link)?;
    }
    Ok(links)
}

/// A number from 1 to 16, or else this code.
pub(crate) fn one_to_16(word: &[u8], code: TopologyCode) -> Result<u8, TopologyCode>
    ensures { result ≡ one_to_16 code word.now }
{
    match read_number(word, 16) {
        Some(number) if number > 0 => Ok(number as u8),
        _ => Err(code),
    }
}

/// Reads a line that begins `group `, after so many groups.
pub(crate) fn group_on(
    alloc: Global,
    text: &[u8],
    line: Line,
    names: &IndexSet<Name>,
    before: usize,
) -> Result<Group, Stop<TopologyCode>>
    requires span { IsIn text.now line }
    requires few { length names.now.keys ≤ 16 }
    ensures read { Gives (λ g. g) result (group_line names.now.keys before (Some (row_at text.now line))) }
    ensures room { IfOk result (λ _. before < 256) }
{
    if !line.whole || has_empty_token(text, line) || !has_three_tokens(text, line) {
        return Err(Stop::Refused(TopologyCode::BadLine));
    }
    if before >= GROUPS {
        return Err(Stop::Refused(TopologyCode::TooManyGroups));
    }
    let mut tokens = tokens_of(text, line);
    let _ = tokens.next_word();
    let word = tokens.next_word().unwrap_or(&[]);
    let width = one_to_16(word, TopologyCode::WidthRange).map_err(Stop::Refused)?;
    let links = links_of(alloc, names, &mut tokens)?;
    Ok(Group::new(links, width))
}
