//! What settles the candidates of a search by ordered schedules, one at a time.
#![tactic(auto)]

mod engine;
mod laws;
mod searching;
mod trying;

pub use candidate_formula::questions_have_exact_ordered_formulas;
pub use chunk_order::{
    OutOfMemory, alike_chunks_have_one_watch_node, chunks_are_alike_exactly, order_clauses,
    ordered_formulas_are_exact, ordered_formulas_say_ordered_schedules, ordered_schedules_suffice,
};
pub use engine::OrderedEngine;
pub use engine_rules::{Engine, EngineFault, EngineView, Settled};
pub use laws::{
    every_store_is_left_as_it_was, ordered_schedules_are_asked_for,
    the_log_refutes_the_last_candidate,
};
