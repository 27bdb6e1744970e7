//! The top call.

ghost use Rattle.std.specs.Prelude.{◌≡◌, ◌⊎◌, ◌+◌, ◌≤◌, ℕ, IsTrue, Err, IfOk, IfErr, drop};
ghost use Rattle.outer_ports.specs.Port.{HasCause, Tells};
ghost use Rattle.command_words.specs.Words.{command_of, texts};
ghost use Rattle.run_rules.specs.{Commands.{Ask, IsRefusal, opens_shelf, reads_source}, Tasks.limit};
ghost use Rattle.sccl_run.specs.{inner.Answering.{Answers, IsAnswerTo, IsHaltAt}, TopCall.IsRun};

use crate::commands::text_answer;
use crate::source_text::source_text;
use command_words::read_words;
use outer_ports::{Failed, Shelf, Sink, Source, write_all};
use run_rules::{Answer, Halt, Status, reads_source, refused_word};
use std::alloc::Global;

/// The answer to the words and to what the source gives.
fn answer<I: Source, H: Shelf>(
    alloc: Global,
    words: &[String],
    source: &mut I,
    shelf: &mut H,
) -> Result<Answer, Halt>
    ensures ends { IfOk result (λ a. Answers (command_of (texts words.now)) a.status) }
    ensures answers { IfOk result (λ a. IsAnswerTo (texts words.now) (I.tells source.new) (I.left source.old) (record { told = H.tells shelf.new; before = H.file shelf.old; after = H.file shelf.new }) a.status a.text.items) }
    ensures halts { IfErr result (IsHaltAt (texts words.now) (I.tells source.new) (I.left source.old) (record { told = H.tells shelf.new; before = H.file shelf.old; after = H.file shelf.new })) }

    // the source
    ensures told { Tells (I.tells source.old) (I.tells source.new) }
    ensures cause { HasCause Halt.Source (I.faults source.old) (I.faults source.new) result }
    ensures reads { result ≡ Err Halt.Source → Ask reads_source (texts words.now) }
    ensures unread { ¬ Ask reads_source (texts words.now) → source.new ≡ source.old }
    ensures read { IsTrue (I.tells source.new) → Ask reads_source (texts words.now) → IfOk result (λ _. I.left source.new ≡ drop (limit + 1) (I.left source.old)) }
    ensures memory { IsTrue (I.tells source.new) → result ≡ Err Halt.Memory → (I.left source.new ≡ I.left source.old) ⊎ (I.left source.new ≡ drop (limit + 1) (I.left source.old)) }
    ensures part { IsTrue (I.tells source.new) → result ≡ Err Halt.Source → (count : ℕ) × (count ≤ limit + 1) × (I.left source.new ≡ drop count (I.left source.old)) }
    ensures behind { IsTrue (I.tells source.new) → result ≡ Err Halt.Shelf → I.left source.new ≡ drop (limit + 1) (I.left source.old) }

    // the shelf
    ensures shelf_told { Tells (H.tells shelf.old) (H.tells shelf.new) }
    ensures shelf_cause { HasCause Halt.Shelf (H.faults shelf.old) (H.faults shelf.new) result }
    ensures opens { result ≡ Err Halt.Shelf → Ask opens_shelf (texts words.now) }
    ensures unopened { ¬ Ask opens_shelf (texts words.now) → shelf.new ≡ shelf.old }
    ensures behind_source { result ≡ Err Halt.Source → shelf.new ≡ shelf.old }
    ensures behind_refusals { IfOk result (λ a. IsRefusal a.status → shelf.new ≡ shelf.old) }
{
    match read_words(words) {
        Ok(command) => {
            let text = source_text(alloc, reads_source(&command), source)?;
            text_answer(alloc, &command, text, shelf)
        }
        Err(fault) => Ok(refused_word(alloc, fault.code, fault.word)?),
    }
}

/// Does what the words ask for, and writes one text to the sink: what the command gives, or the
/// line of a refusal. The status says how it ended.
///
/// `synth` reads a topology from the source, searches the schedules of a collective, writes the
/// report, and keeps the formulas and the proofs on the shelf. `check` reads a report from the
/// source and the files beside it from the shelf, and writes whether they are right. `replay
/// point=N` reads a report, and writes the replay of its point, with `order=SEED` in the order that
/// the seed draws too. `programs point=N` writes the programs that carry its point out. `family`
/// writes the topology text of a family, and `trial` the summary of a search that is audited and
/// replayed; neither reads anything.
///
/// `bound` searches as `synth` does, and writes which candidates a cut refutes, and how few rounds
/// any schedule can have for its chunk count; the shelf has the proofs of the others. `ordered`
/// searches for schedules in which chunks that are alike come in order, and keeps no file.
/// `degrade` reads a report, audits it over the shelf, and writes the frontier over the links that
/// a fault leaves, where what was refuted stays refuted. `json` writes a topology, a report or the
/// programs of a point as JSON, and `unjson` the text that a JSON stands for.
pub fn run<I: Source, O: Sink, H: Shelf>(
    alloc: Global,
    words: &[String],
    source: &mut I,
    sink: &mut O,
    shelf: &mut H,
) -> Status
    ensures run { IsRun
        (record {
          words = texts words.now;
          status = result;
          bytes = I.left source.old;
          left = I.left source.new;
          before = O.written sink.old;
          now = O.written sink.new;
          files = H.file shelf.old;
          files_after = H.file shelf.new;
        })
        (record { source = I.tells source.new; sink = O.tells sink.new; shelf = H.tells shelf.new })
        (record { before = I.faults source.old; now = I.faults source.new })
        (record { before = O.faults sink.old; now = O.faults sink.new })
        (record { before = H.faults shelf.old; now = H.faults shelf.new })
        (source.new ≡ source.old)
        (sink.new ≡ sink.old)
        (shelf.new ≡ shelf.old) }

    // What a port tells after the run it told before.
    ensures source_told { Tells (I.tells source.old) (I.tells source.new) }
    ensures sink_told { Tells (O.tells sink.old) (O.tells sink.new) }
    ensures shelf_told { Tells (H.tells shelf.old) (H.tells shelf.new) }
{
    match answer(alloc, words, source, shelf) {
        Ok(answer) => match write_all(sink, &answer.text) {
            Ok(()) => answer.status,
            Err(Failed) => Status::SinkFailed,
        },
        Err(Halt::Memory) => Status::OutOfMemory,
        Err(Halt::Source) => Status::SourceFailed,
        Err(Halt::Shelf) => Status::ShelfFailed,
    }
}
