//! The numbers of a line, each behind a space.

ghost use Rattle.std.specs.Prelude.{◌≡◌, ◌∷◌, ◌++◌, OnOk, decimal};

use crate::number::{push_number, push_word};
use std::alloc::AllocError;

/// Appends a space and a number. An `Err` comes only where memory runs out.
pub fn push_number_field(out: &mut Vec<u8>, value: u64) -> Result<(), AllocError>
    ensures { OnOk result (out.new.items ≡ out.old.items ++ 32 ∷ decimal value) }
{
    push_word(out, b" ")?;
    push_number(out, value)?;
    Ok(())
}
