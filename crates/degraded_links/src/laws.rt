//! Laws of an engine over another.

ghost use Rattle.std.specs.Prelude.{◌≡◌, ◌↔◌};
ghost use Rattle.degraded_links.specs.declared.engine.CarryEngine.{CarryEngine};

use crate::engine::CarryEngine;
use engine_rules::{Engine, EngineView};

/// Beside a store the engine counts the faults of the engine within, agrees with what that agrees
/// with, and changes what that changes. Its old candidates stay.
pub fn the_store_is_that_of_the_engine_within<T, E: Engine<T>>()
    ensures faults { (e : CarryEngine E ⟦<E as EngineView>⟧) (store : T) → ⟦<CarryEngine<E> as Engine<T>>⟧.faults e store ≡ E.faults e.inner store }
    ensures agrees { (e : CarryEngine E ⟦<E as EngineView>⟧) (store : T) → ⟦<CarryEngine<E> as Engine<T>>⟧.agrees e store ↔ E.agrees e.inner store }
    ensures moves { (a : CarryEngine E ⟦<E as EngineView>⟧) (before : T) (b : CarryEngine E ⟦<E as EngineView>⟧) (now : T) → ⟦<CarryEngine<E> as Engine<T>>⟧.moves a before b now ↔ (E.moves a.inner before b.inner now × (b.old.items ≡ a.old.items)) }
{}
