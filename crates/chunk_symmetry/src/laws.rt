//! Laws of an engine that searches for ordered schedules.

ghost use Rattle.std.specs.Prelude.{◌≡◌, ◌↔◌, [], ◌∷◌, ◌++◌, map};
ghost use Rattle.schedule.specs.Sends.{ScheduleValue};
ghost use Rattle.cnf_formula.specs.declared.line.LratLine.TheVariants.{Addition};
ghost use Rattle.proof_rules.specs.Refuting.{Refutes};
ghost use Rattle.chunk_symmetry.specs.declared.engine.OrderedEngine.{OrderedEngine};
ghost use Rattle.engine_rules.specs.declared.settled.Settled.TheVariants as settled;
ghost use Rattle.engine_rules.specs.Outcomes.{RecordValue};
ghost use Rattle.candidate_formula.specs.Formulas.{ordered_formula_for, OrderedFor};

use crate::engine::OrderedEngine;
use candidate_order::Candidate;
use engine_rules::{Engine, EngineView};

/// Where the candidate that was settled last was refuted, the engine's log refutes its formula with
/// the clauses of the order.
pub fn the_log_refutes_the_last_candidate()
    ensures { (e : OrderedEngine) (before : RecordValue) (x : Candidate) → ⟦<OrderedEngine as EngineView>⟧.entries e ≡ before ++ (x, settled.Refuted) ∷ []
        → Refutes (map Addition (⟦<OrderedEngine as EngineView>⟧.log_lines e)) (⟦<OrderedEngine as EngineView>⟧.formula e x) }
{}

/// The engine works beside every store: it leaves the store as it was, never counts a fault, and
/// agrees with each.
pub fn every_store_is_left_as_it_was<T>()
    ensures stays { (a : OrderedEngine) (before : T) (b : OrderedEngine) (now : T) → ⟦<OrderedEngine as Engine<T>>⟧.moves a before b now → now ≡ before }
    ensures faults { (e : OrderedEngine) (store : T) → ⟦<OrderedEngine as Engine<T>>⟧.faults e store ≡ 0 }
    ensures agrees { (e : OrderedEngine) (store : T) → ⟦<OrderedEngine as Engine<T>>⟧.agrees e store }
{}

/// At all times the engine's formula of a candidate of its question is that with the clauses of the
/// order, and what it promises of a schedule beyond solving is that it is ordered.
pub fn ordered_schedules_are_asked_for()
    ensures formula { (e : OrderedEngine) (x : Candidate) → ⟦<OrderedEngine as EngineView>⟧.formula e x ≡ ordered_formula_for (⟦<OrderedEngine as EngineView>⟧.question e) x }
    ensures suits { (e : OrderedEngine) (x : Candidate) (schedule : ScheduleValue) → ⟦<OrderedEngine as EngineView>⟧.suits e x schedule ↔ OrderedFor (⟦<OrderedEngine as EngineView>⟧.question e) x schedule }
{}
