//! The commands that write a topology, a report or the programs of a point as JSON, and that read a
//! topology or a report back.
#![tactic(auto)]

mod laws;
mod reading;
mod writing;

pub use laws::json_is_read_back;
pub use reading::unjson_answer;
pub use std::alloc::AllocError as OutOfMemory;
pub use writing::json_answer;
