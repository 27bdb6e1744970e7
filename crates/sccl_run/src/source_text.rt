//! What the source gives.

ghost use Rattle.std.specs.Prelude.{◌≡◌, ◌≢◌, ◌+◌, ◌<◌, ◌≤◌, ℕ, false, true, length, IsTrue, Err, IfOk, IfSome, IfNone, OnOk, drop};
ghost use Rattle.outer_ports.specs.Port.{HasCause, Tells};
ghost use Rattle.run_rules.specs.Tasks.{limit};

use outer_ports::{ReadFault, Source, read_all};
use run_rules::{Halt, LIMIT};
use std::alloc::Global;

/// The bytes that the source gives, where it is to be read, and else none; `None` where more came
/// than are read.
pub(crate) fn source_text<I: Source>(
    alloc: Global,
    reads: bool,
    source: &mut I,
) -> Result<Option<Vec<u8>>, Halt>
    ensures told { Tells (I.tells source.old) (I.tells source.new) }
    ensures cause { HasCause Halt.Source (I.faults source.old) (I.faults source.new) result }
    ensures reads { result ≡ Err Halt.Source → reads ≡ true }
    ensures shelf { result ≢ Err Halt.Shelf }
    ensures untouched { reads ≡ false → source.new ≡ source.old }
    ensures short { IfOk result (λ text. IfSome text (λ bytes. length bytes.items ≤ limit)) }
    ensures whole { IsTrue (I.tells source.new) → reads ≡ true → IfOk result (λ text. IfSome text (λ bytes. bytes.items ≡ I.left source.old)) }
    ensures long { IfOk result (λ text. IfNone text (reads ≡ true)) }
    ensures longer { IsTrue (I.tells source.new) → IfOk result (λ text. IfNone text (limit < length (I.left source.old))) }
    ensures read { IsTrue (I.tells source.new) → reads ≡ true → OnOk result (I.left source.new ≡ drop (limit + 1) (I.left source.old)) }
    ensures memory { result ≡ Err Halt.Memory → source.new ≡ source.old }
    ensures part { IsTrue (I.tells source.new) → result ≡ Err Halt.Source → (count : ℕ) × (count ≤ limit + 1) × (I.left source.new ≡ drop count (I.left source.old)) }
{
    if !reads {
        return Ok(Some(Vec::new(alloc)));
    }
    match read_all(alloc, source, LIMIT) {
        Ok(text) => Ok(Some(text)),
        Err(ReadFault::TooLong) => Ok(None),
        Err(ReadFault::Failed) => Err(Halt::Source),
        Err(ReadFault::OutOfMemory) => Err(Halt::Memory),
    }
}
