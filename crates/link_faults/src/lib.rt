//! Topologies after a fault: the links of a group have a smaller width or are gone, and what was
//! refuted stays refuted.
#![tactic(auto)]

mod carrying;
mod laws;
mod narrowing;
mod vectors;

pub use carrying::{carries, is_carried};
pub use laws::{
    a_fault_leaves_a_topology, a_fault_makes_no_search_larger, a_fault_turns_round,
    carriers_are_told_exactly, carrying_is_an_order, old_refutations_turn_round,
    refutations_carry_over_a_fault, what_fits_after_a_fault_did_before,
    what_is_carried_has_no_schedule, what_is_solvable_after_a_fault_was_before,
};
pub use narrowing::narrow;
pub use std::alloc::AllocError as OutOfMemory;
pub use vectors::{links_go, links_go_from_every_group, some_carry};
