//! The frontier of any collective but allreduce, by a search with any engine.
#![tactic(auto)]

mod laws;
mod searching;
mod vectors;

pub use candidate_formula::links_to_search;
pub use engine_rules::EngineFault;
pub use laws::a_search_asks_for_the_same_candidates;
pub use searching::frontier_by;
pub use std::alloc::AllocError as OutOfMemory;
pub use vectors::{a_copy_is_searched_as_it_is, a_sum_is_searched_as_its_inverse};
