//! What settles the candidates of a search after a fault, where old refutations carry over.
#![tactic(auto)]

mod engine;
mod laws;
mod refuting;

pub use engine::CarryEngine;
pub use engine_rules::{Engine, EngineFault, EngineView, Settled};
pub use laws::the_store_is_that_of_the_engine_within;
pub use link_faults::{
    OutOfMemory, a_fault_leaves_a_topology, a_fault_makes_no_search_larger, a_fault_turns_round,
    carriers_are_told_exactly, carries, carrying_is_an_order, is_carried, narrow,
    old_refutations_turn_round, refutations_carry_over_a_fault, what_fits_after_a_fault_did_before,
    what_is_carried_has_no_schedule, what_is_solvable_after_a_fault_was_before,
};
pub use refuting::carried_is_refuted;
