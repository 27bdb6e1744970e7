//! Runs of bags: how often each node has contributed to each chunk at each node, after each step of
//! a schedule.
#![tactic(auto)]

mod bag;
mod laws;
mod mode;
mod steps;
mod store;
mod vectors;

pub use bag::Bag;
pub use laws::{a_run_that_adds_is_that_of_the_sum, a_run_that_copies_is_that_of_the_placement};
pub use mode::Mode;
pub use std::alloc::AllocError as OutOfMemory;
pub use steps::{last_store, replay_steps};
pub use store::Store;
pub use vectors::counts_stop_at_2;
