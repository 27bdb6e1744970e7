//! The formula's first half: what the nodes have after each step, and what is sent. Where it is
//! satisfied, the sends are a tight schedule, and what the nodes have is what its run gives.
#![tactic(auto)]

mod arriving;
mod decoding;
mod laws;
mod link_numbers;
mod once;
mod placing;
mod send_map;
mod sending;

pub use decoding::sends_of;
pub use laws::sends_have_few_clauses;
pub use send_map::SendMap;
pub use sending::{add_variables, encode_sends};
pub use std::alloc::AllocError as OutOfMemory;
