//! The assignment that a search ends with.

ghost use Rattle.std.specs.Prelude.{◌≡◌, ◌+◌, ◌<◌, ◌≤◌, true, false, length, Contains, IfOk};
ghost use Rattle.cnf_formula.specs.Literals.{yes};
ghost use Rattle.trail_core.specs.Meaning.{trues};
ghost use Rattle.sat_core.specs.inner.Totals.{AreValues};

use cnf_formula::{Assignment, Lit, OutOfMemory};
use std::alloc::Global;
use trail_core::Core;

/// The value of the variable after the first `index`: true where the core, which has the first
/// `own`, says so.
fn value_at(core: &Core, own: u32, index: u32) -> bool
    requires own { own ≡ core.now.vars }
    requires small { own < 2147483648 }
    ensures stands { index < own → result ≡ true → Contains (trues core.now) (yes (index + 1)) }
    ensures lacks { index < own → result ≡ false → Contains (trues core.now) (yes (index + 1)) → ⊥ }
{
    if index >= own {
        return false;
    }
    let _known = core.trail();
    match core.value(Lit::new(index + 1, true)) {
        Some(value) => value,
        None => false,
    }
}

/// A value for each of `vars` variables: true where the core, which has the first `own`, says so.
pub fn model_of(alloc: Global, core: &Core, own: u32, vars: u32) -> Result<Assignment, OutOfMemory>
    requires own { own ≡ core.now.vars }
    requires small { own < 2147483648 }
    requires some { own ≤ vars }
    ensures len { IfOk result (λ values. length values ≡ vars) }
    ensures values { IfOk result (AreValues (trues core.now) own) }
{
    let mut values = Vec::with_capacity(alloc, vars as usize)?;
    for index in 0..vars {
        values.push(value_at(core, own, index))?;
    }
    Ok(Assignment { values })
}
