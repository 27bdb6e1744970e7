//! The word of one link.

ghost use Rattle.std.specs.{Prelude.{◌≡◌, ◌≤◌, ◌==◌, length}, List.slice_split};
ghost use Rattle.topology_text.specs.Reading.{both_sides, node_of, link_read};
ghost use Rattle.text_lines.specs.Check.{Tells};

use crate::fault::TopologyCode;
use crate::name::Name;
use indexmap::IndexSet;
use text_lines::end_of;

fn sides_of(word: &[u8]) -> Result<(&[u8], &[u8]), TopologyCode>
    ensures { Tells (λ x. (x.0.now, x.1.now)) result (both_sides (slice_split (λ b. b == 62) word.now)) }
{
    let at = end_of(word, 0, word.len(), b'>');
    if at == word.len() {
        return Err(TopologyCode::BadLine);
    }
    let end = end_of(word, at + 1, word.len(), b'>');
    if end < word.len() {
        return Err(TopologyCode::BadLine);
    }
    Ok((&word[..at], &word[at + 1..]))
}

/// The number of the node with this name.
pub(crate) fn node_of(names: &IndexSet<Name>, name: &[u8]) -> Option<u8>
    requires { length names.now.keys ≤ 16 }
    ensures { result ≡ node_of names.now.keys name.now }
{
    let node = names.get_index_of(name)?;
    Some(node as u8)
}

pub(crate) fn link_of(names: &IndexSet<Name>, word: &[u8]) -> Result<(u8, u8), TopologyCode>
    requires { length names.now.keys ≤ 16 }
    ensures { result ≡ link_read names.now.keys word.now }
{
    let (from, to) = sides_of(word)?;
    let Some(from) = node_of(names, from) else {
        return Err(TopologyCode::UnknownNode);
    };
    let Some(to) = node_of(names, to) else {
        return Err(TopologyCode::UnknownNode);
    };
    if from == to {
        return Err(TopologyCode::SelfLink);
    }
    Ok((from, to))
}
