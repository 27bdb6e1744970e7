//! The replay of a point of a report: what each node has after each step, the verdict on the
//! schedule, and the run of its programs in an order.
#![tactic(auto)]

mod adding;
mod bags;
mod order;
mod placements;
mod point;
mod programs;
mod running;
mod steps;
mod vectors;
mod verdicts;
mod words;

pub use point::replay_point;
pub use programs::{point_programs, print_point_programs};
pub use running::run_point;
pub use std::alloc::AllocError as OutOfMemory;
pub use vectors::replays;
