//! The words of a line.

ghost use Rattle.std.specs.Prelude.{◌≡◌, ◌++◌, ◌∷◌, [], decimal, OnOk};
ghost use Rattle.text_lines.specs.Text.{line};

use crate::OutOfMemory;
use text_lines::{push_number_field, push_word};

/// Appends a line of a word and a number.
pub(crate) fn push_numbered(out: &mut Vec<u8>, word: &[u8], number: u64) -> Result<(), OutOfMemory>
    ensures { OnOk result (out.new.items ≡ out.old.items ++ line (word.now ∷ decimal number ∷ [])) }
{
    push_word(out, word)?;
    push_number_field(out, number)?;
    push_word(out, b"\n")
}
