//! The answer of each command.

ghost use Rattle.std.specs.Prelude.{◌≡◌, ◌≢◌, ◌<◌, ◌≤◌, ℕ, List, length, IsTrue, IfOk, IfSome, IfNone, OnErr, Ok, Err};
ghost use Rattle.outer_ports.specs.Port.{HasCause, Tells};
ghost use Rattle.command_words.specs.Commands.{IsProper};
ghost use Rattle.run_rules.specs.{Answers.{IsAnswer, LeavesOff}, Commands.{IsOneOf, IsRefusal, opens_shelf, reads_source}, Ends.answers_of, Refusals.Refusal, Tasks.{limit, task_of}};
ghost use Rattle.sccl_run.specs.inner.Answering.{due_for};

use crate::family::family_answer;
use command_words::{Command, PointWord, SearchWords};
use json_command::{json_answer, unjson_answer};
use outer_ports::Shelf;
use report_commands::{LinkFault, check_answer, degrade_answer, programs_answer, replay_answer};
use run_rules::{Answer, Halt, too_long};
use search_commands::{bound_answer, ordered_answer, synth_answer};
use std::alloc::Global;
use trial_command::trial_answer;

/// The answer of a command to bytes that came whole. Only what opens the shelf is lent it.
pub(crate) fn command_answer<H: Shelf>(
    alloc: Global,
    command: &Command,
    bytes: &[u8],
    shelf: &mut H,
) -> Result<Answer, Halt>
    requires short { length bytes.now ≤ limit }
    requires proper { IsProper command.now }
    ensures answers { IfOk result (λ a. IsAnswer (task_of command.now bytes.now) (record { told = H.tells shelf.new; before = H.file shelf.old; after = H.file shelf.new }) a.status a.text.items) }
    ensures leaves { IsTrue (H.tells shelf.new) → OnErr result (LeavesOff (task_of command.now bytes.now) (H.file shelf.old) (H.file shelf.new)) }
    ensures unopened { ¬ IsTrue (opens_shelf (Ok command.now)) → shelf.new ≡ shelf.old }
    ensures untouched { IfOk result (λ a. IsRefusal a.status → shelf.new ≡ shelf.old) }
    ensures opens { result ≡ Err Halt.Shelf → IsTrue (opens_shelf (Ok command.now)) }
    ensures last { result ≡ Err Halt.Shelf → (r : Refusal) → task_of command.now bytes.now ≡ Err r → ⊥ }
    ensures source { result ≢ Err Halt.Source }
    ensures told { Tells (H.tells shelf.old) (H.tells shelf.new) }
    ensures cause { HasCause Halt.Shelf (H.faults shelf.old) (H.faults shelf.new) result }
{
    match *command {
        Command::Synth {
            kind,
            kind_word,
            limits,
            root,
            kept,
        } => {
            let asked = SearchWords {
                kind,
                kind_word,
                limits,
                root,
            };
            synth_answer(alloc, asked, kept, bytes, shelf)
        }
        Command::Check => check_answer(alloc, bytes, shelf),
        Command::Replay {
            point,
            point_word: word,
            order,
        } => Ok(replay_answer(alloc, PointWord { point, word }, order, bytes)?),
        Command::Programs {
            point,
            point_word: word,
        } => Ok(programs_answer(alloc, PointWord { point, word }, bytes)?),
        Command::Family { kind, size } => Ok(family_answer(alloc, kind, size)?),
        Command::Trial { n } => Ok(trial_answer(alloc, n)?),
        Command::Bound {
            kind,
            kind_word,
            limits,
            root,
            all_sets,
        } => {
            let asked = SearchWords {
                kind,
                kind_word,
                limits,
                root,
            };
            bound_answer(alloc, asked, all_sets, bytes, shelf)
        }
        Command::Ordered {
            kind,
            kind_word,
            limits,
            root,
        } => {
            let asked = SearchWords {
                kind,
                kind_word,
                limits,
                root,
            };
            Ok(ordered_answer(alloc, asked, bytes)?)
        }
        Command::Degrade {
            group,
            group_word,
            width,
            width_word,
        } => {
            let fault = LinkFault {
                group,
                group_word,
                width,
                width_word,
            };
            degrade_answer(alloc, fault, bytes, shelf)
        }
        Command::Json { what, point } => Ok(json_answer(alloc, what, point, bytes)?),
        Command::Unjson { what } => Ok(unjson_answer(alloc, what, bytes)?),
    }
}

/// The answer of a command to what came from the source: bytes that came whole, or `None` where too
/// many came.
pub(crate) fn text_answer<H: Shelf>(
    alloc: Global,
    command: &Command,
    text: Option<Vec<u8>>,
    shelf: &mut H,
) -> Result<Answer, Halt>
    requires short { IfSome text (λ bytes. length bytes.items ≤ limit) }
    requires long { IfNone text (IsTrue (reads_source (Ok command.now))) }
    requires proper { IsProper command.now }
    ensures ends { IfOk result (λ a. IsOneOf (answers_of command.now) a.status) }
    ensures answers { (came : List ℕ) → IfSome text (λ bytes. came ≡ bytes.items) → IfNone text (limit < length came) → IfOk result (λ a. IsAnswer (due_for command.now came) (record { told = H.tells shelf.new; before = H.file shelf.old; after = H.file shelf.new }) a.status a.text.items) }
    ensures leaves { (came : List ℕ) → IfSome text (λ bytes. came ≡ bytes.items) → IfNone text (limit < length came) → IsTrue (H.tells shelf.new) → OnErr result (LeavesOff (due_for command.now came) (H.file shelf.old) (H.file shelf.new)) }
    ensures last { (came : List ℕ) → IfSome text (λ bytes. came ≡ bytes.items) → IfNone text (limit < length came) → result ≡ Err Halt.Shelf → (r : Refusal) → due_for command.now came ≡ Err r → ⊥ }
    ensures unopened { ¬ IsTrue (opens_shelf (Ok command.now)) → shelf.new ≡ shelf.old }
    ensures untouched { IfOk result (λ a. IsRefusal a.status → shelf.new ≡ shelf.old) }
    ensures opens { result ≡ Err Halt.Shelf → IsTrue (opens_shelf (Ok command.now)) }
    ensures source { result ≢ Err Halt.Source }
    ensures told { Tells (H.tells shelf.old) (H.tells shelf.new) }
    ensures cause { HasCause Halt.Shelf (H.faults shelf.old) (H.faults shelf.new) result }
{
    match text {
        Some(bytes) => command_answer(alloc, command, &bytes, shelf),
        None => Ok(too_long(alloc)?),
    }
}
