//! The command that tries: each number stands for a search, which is done, audited and replayed,
//! and summed up in a text.
#![tactic(auto)]

mod asked;
mod counts;
mod laws;
mod replays;
mod summary;
mod trial;
mod vectors;

pub use laws::settled_trials_count_the_same;
pub use std::alloc::AllocError as OutOfMemory;
pub use trial::trial_answer;
pub use vectors::trials;
