//! Names of nodes as texts.

ghost use Rattle.std.specs.Prelude.{◌≡◌};
ghost use Rattle.topology_text.specs.Spelling.{name_at};

use std::str;
use topology_text::Name;

/// The name as a text.
pub fn name_text(name: &Name) -> &str
    ensures { result.now ≡ name.now }
{
    str::from_utf8(name.as_bytes()).unwrap()
}

/// The name of a node, by its number from 0; it is empty where there is no such node.
pub fn node_text(names: &[Name], node: u8) -> &str
    ensures { result.now ≡ name_at names.now node }
{
    match names.get(usize::from(node)) {
        Some(name) => name_text(name),
        None => "",
    }
}
