//! Hints in 32 bits each.

ghost use Rattle.std.specs.Prelude.{◌≡◌, pos, map, IfOk};

use cnf_formula::OutOfMemory;
use std::alloc::Global;

/// The hints in 32 bits each. An `Err` comes where memory runs out, and where one does not fit.
pub(crate) fn narrowed(alloc: Global, hints: &[i64]) -> Result<Vec<u32>, OutOfMemory>
    ensures { IfOk result (λ numbers. map pos numbers.items ≡ hints.now) }
{
    let mut numbers = Vec::with_capacity(alloc, hints.len())?;
    for hint in hints {
        let Ok(number) = u32::try_from(*hint) else {
            return Err(OutOfMemory);
        };
        numbers.push(number)?;
    }
    Ok(numbers)
}

/// The hints that are kept so.
pub(crate) fn widened(alloc: Global, numbers: &[u32]) -> Result<Vec<i64>, OutOfMemory>
    ensures { IfOk result (λ hints. hints.items ≡ map pos numbers.now) }
{
    let mut hints = Vec::with_capacity(alloc, numbers.len())?;
    for number in numbers {
        hints.push(i64::from(*number))?;
    }
    Ok(hints)
}
