//! The tokens of a line, taken off its front one by one.

ghost use Rattle.std.specs.Prelude.{◌≤◌, length};
ghost use Rattle.text_lines.specs.Check.{need, Tells};
ghost use Rattle.topology_text.specs.Names.{name_of};
ghost use Rattle.report_form.specs.Fields.{fixed_word, next_keyed, next_node, next_number, next_word, no_more, small_number};

use indexmap::IndexSet;
use report_form::ReportCode;
use text_lines::{Tokens, read_number};
use topology_text::Name;

/// No number of a line is greater, but for conflicts.
const GREATEST: u64 = 65_535;

/// Takes a token that is known.
pub fn fixed_word(tokens: &mut Tokens<'_>, word: &[u8]) -> Result<(), ReportCode>
    ensures { Tells (λ _. tokens.new.words) result (fixed_word word.now tokens.old.words) }
{
    match tokens.next_word() {
        Some(token) if token == word => Ok(()),
        _ => Err(ReportCode::BadLine),
    }
}

/// The number that a token spells, at most 65,535.
pub fn small_number(token: &[u8]) -> Result<u16, ReportCode>
    ensures { Tells (λ n. n) result (need (small_number token.now) ReportCode.BadLine) }
{
    match read_number(token, GREATEST) {
        Some(number) => Ok(number as u16),
        None => Err(ReportCode::BadLine),
    }
}

/// Takes a token that spells a number, at most 65,535.
pub fn next_number(tokens: &mut Tokens<'_>) -> Result<u16, ReportCode>
    ensures { Tells (λ n. (n, tokens.new.words)) result (next_number tokens.old.words) }
{
    match tokens.next_word() {
        Some(token) => small_number(token),
        None => Err(ReportCode::BadLine),
    }
}

/// Takes a token that names a node, and gives its number.
pub fn next_node(tokens: &mut Tokens<'_>, names: &IndexSet<Name>) -> Result<u8, ReportCode>
    requires { length names.now.keys ≤ 16 }
    ensures { Tells (λ node. (node, tokens.new.words)) result (next_node names.now.keys tokens.old.words) }
{
    let Some(token) = tokens.next_word() else {
        return Err(ReportCode::BadLine);
    };
    match names.get_index_of(token) {
        Some(node) => Ok(node as u8),
        None => Err(ReportCode::BadLine),
    }
}

/// Takes a token that begins with a key, and gives what stands behind the key.
pub fn next_value<'a>(tokens: &mut Tokens<'a>, key: &[u8]) -> Result<&'a [u8], ReportCode>
    ensures { Tells (λ value. (value.now, tokens.new.words)) result (next_keyed key.now (λ value. Some value) tokens.old.words) }
{
    match tokens.next_word() {
        Some(token) if token.starts_with(key) => Ok(&token[key.len()..]),
        _ => Err(ReportCode::BadLine),
    }
}

/// Takes a token that is a key and a name.
pub fn next_name(tokens: &mut Tokens<'_>, key: &[u8]) -> Result<Name, ReportCode>
    ensures { Tells (λ name. (name, tokens.new.words)) result (next_keyed key.now name_of tokens.old.words) }
{
    let value = next_value(tokens, key)?;
    match Name::of_bytes(value) {
        Some(name) => Ok(name),
        None => Err(ReportCode::BadLine),
    }
}

/// No token is left.
pub fn no_more(tokens: &mut Tokens<'_>) -> Result<(), ReportCode>
    ensures { Tells (λ u. u) result (no_more tokens.old.words) }
{
    match tokens.next_word() {
        None => Ok(()),
        Some(_) => Err(ReportCode::BadLine),
    }
}
