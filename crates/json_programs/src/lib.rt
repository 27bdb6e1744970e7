//! The programs of a point's schedule as JSON.
#![tactic(auto)]

mod programs;
mod vectors;

pub use programs::programs_json;
pub use std::alloc::AllocError as OutOfMemory;
pub use vectors::programs_printed;
