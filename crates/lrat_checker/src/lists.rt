//! Lists by the codes of literals.

ghost use Rattle.std.specs.Prelude.{◌≡◌, ℕ, ◌<◌, length, map, Contains, IfOk, OnOk};
ghost use Rattle.lrat_checker.specs.Stored.{list_at};

use cnf_formula::OutOfMemory;
use std::alloc::Global;

/// So many lists with nothing in them.
pub(crate) fn empty_lists<T: Drop>(alloc: Global, count: usize) -> Result<Vec<Vec<T>>, OutOfMemory>
    ensures { IfOk result (λ lists. length lists.items ≡ count) }
{
    let mut lists = Vec::with_capacity(alloc, count)?;
    for _ in 0..count {
        lists.push_reserved(Vec::new(alloc));
    }
    Ok(lists)
}

/// Puts an item into a list. An `Err` comes only where memory runs out.
pub(crate) fn note<T: Drop>(
    lists: &mut Vec<Vec<T>>,
    code: usize,
    item: T,
) -> Result<(), OutOfMemory>
    requires { code < length lists.old.items }
    ensures long { length lists.new.items ≡ length lists.old.items }
    ensures kept { (other : ℕ) (x : T) → Contains (list_at (map (λ l. l.items) lists.old.items) other) x → Contains (list_at (map (λ l. l.items) lists.new.items) other) x }
    ensures noted { OnOk result (Contains (list_at (map (λ l. l.items) lists.new.items) code) item) }
{
    let list = &mut lists[code];
    list.push(item)?;
    Ok(())
}
