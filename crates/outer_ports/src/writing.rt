//! Writing a whole text.

ghost use Rattle.std.specs.Prelude.{◌≡◌, ℕ, ◌<◌, ◌++◌, length, take, IsTrue, OnErr, OnOk};
ghost use Rattle.outer_ports.specs.Port.{failed, HasCause, Tells};

use crate::failed::Failed;
use crate::sink::Sink;

/// Writes all of `bytes`, and takes no memory. Each call of the sink is handed all the bytes that
/// are left.
///
/// [`Failed`] comes only where the sink's count of faults rose in this call, or stands at its last
/// value. A part of `bytes` was written then, from its front and not the whole. After `Ok` the
/// count is as it was.
#[tactic(auto, using(crate::proofs::Pieces::appended_more))]
pub fn write_all<O: Sink>(sink: &mut O, bytes: &[u8]) -> Result<(), Failed>
    ensures told { Tells (O.tells sink.old) (O.tells sink.new) }
    ensures whole { IsTrue (O.tells sink.new) →
        OnOk result (O.written sink.new ≡ O.written sink.old ++ bytes.now) }
    ensures prefix { IsTrue (O.tells sink.new) →
        OnErr result ((k : ℕ) × (k < length bytes.now)
        × (O.written sink.new ≡ O.written sink.old ++ take k bytes.now)) }
    ensures cause { HasCause failed (O.faults sink.old) (O.faults sink.new) result }
{
    let mut done = 0;
    while done < bytes.len() {
        done += sink.write(&bytes[done..])?;
    }
    Ok(())
}
