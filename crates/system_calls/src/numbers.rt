//! The numbers of the standard streams.

ghost use Rattle.std.specs.Prelude.{IsTrue, OnOk};
ghost use Rattle.outer_ports.specs.Port.{Tells};
ghost use Rattle.system_calls.specs.Numbers.{AreTakenBefore, StayTaken};

use crate::number_calls::{NumberCalls, Stream};

/// What keeps the numbers of closed streams taken.
#[derive(Drop)]
pub struct Held<H> {
    input: Option<H>,
    output: Option<H>,
    errors: Option<H>,
}

/// Takes the number of each standard stream that is closed, so that nothing which is opened while
/// the answer is kept has it. Answers the first stream whose number could not be taken.
pub fn hold_numbers<N: NumberCalls>(calls: &mut N) -> Result<Held<N::Holder>, Stream>
    ensures told { Tells (N.tells calls.old) (N.tells calls.new) }
    ensures taken { IsTrue (N.tells calls.new) → OnOk result ((stream : Stream) → IsTrue (N.taken calls.new stream)) }
{
    let input = hold(calls, Stream::Input)?;
    let output = hold(calls, Stream::Output)?;
    let errors = hold(calls, Stream::Errors)?;
    Ok(Held {
        input,
        output,
        errors,
    })
}

// Takes the number of the stream if that is closed. The numbers before it are taken.
fn hold<N: NumberCalls>(calls: &mut N, stream: Stream) -> Result<Option<N::Holder>, Stream>
    ensures told { Tells (N.tells calls.old) (N.tells calls.new) }
    ensures stay { IsTrue (N.tells calls.new) → StayTaken (N.taken calls.old) (N.taken calls.new) }
    ensures taken { IsTrue (N.tells calls.new) → AreTakenBefore (N.taken calls.old) stream → OnOk result (IsTrue (N.taken calls.new stream)) }
{
    if calls.is_open(stream) {
        return Ok(None);
    }
    match calls.take_number() {
        Some(holder) => Ok(Some(holder)),
        None => Err(stream),
    }
}
