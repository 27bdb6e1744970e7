//! The names of nodes in a line.

ghost use Rattle.std.specs.Prelude.{◌≡◌, ◌∷◌, ◌++◌, OnOk};
ghost use Rattle.topology_text.specs.Spelling.{name_at};

use crate::name::Name;
use std::alloc::AllocError;
use text_lines::push_word;

/// Appends the name of a node, and nothing where there is no such node. An `Err` comes only where
/// memory runs out.
pub fn push_node_name(out: &mut Vec<u8>, names: &[Name], node: u8) -> Result<(), AllocError>
    ensures { OnOk result (out.new.items ≡ out.old.items ++ name_at names.now node) }
{
    match names.get(usize::from(node)) {
        Some(name) => push_word(out, name.as_bytes()),
        None => Ok(()),
    }
}

/// Appends a space and the name of a node, which is empty where there is no such node. An `Err`
/// comes only where memory runs out.
pub fn push_node_field(out: &mut Vec<u8>, names: &[Name], node: u8) -> Result<(), AllocError>
    ensures { OnOk result (out.new.items ≡ out.old.items ++ 32 ∷ name_at names.now node) }
{
    push_word(out, b" ")?;
    push_node_name(out, names, node)
}
