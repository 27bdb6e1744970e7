//! Replays of a schedule: step by step, and as runs of its machine in an order that a seed draws or
//! a list gives.
#![tactic(auto)]

mod by_list;
mod by_order;
mod drawing;
mod laws;
mod vectors;

pub use bag_runs::{
    a_run_that_adds_is_that_of_the_sum, a_run_that_copies_is_that_of_the_placement, replay_steps,
};
pub use by_list::{ListEnd, replay_by_list};
pub use by_order::replay_by_order;
pub use laws::every_copying_order_ends_as_held;
pub use std::alloc::AllocError as OutOfMemory;
pub use vectors::lists_of_relay_events;
