//! The words of the command line.

ghost use Rattle.std.specs.{Prelude.{◌≡◌, drop, IfOk}, Vec.Iter.into_iter_items};

use outer_ports::OutOfMemory;
use std::alloc::Global;
use std::env::Args;

/// The words of a command line behind the first, which is the program's name: each once, in their
/// order.
pub fn behind_name(alloc: Global, args: Args) -> Result<Vec<String>, OutOfMemory>
    ensures { IfOk result (λ words. words.items ≡ drop 1 (into_iter_items args)) }
{
    let mut args = args;
    let _name = args.next();
    let mut words = Vec::new(alloc);
    for word in args {
        words.push(word)?;
    }
    Ok(words)
}
