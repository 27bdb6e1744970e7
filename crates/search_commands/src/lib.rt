//! The commands that search for schedules: `synth`; `bound`, which tells why none can be better; and
//! `ordered`, in whose schedules chunks that are alike come in the order of their numbers.
#![tactic(auto)]

mod bound;
mod bound_finding;
mod bound_printing;
mod bound_searching;
mod bounds;
mod ordered;
mod ordered_printing;
mod ordered_searching;
mod synth;

pub use bound::bound_answer;
pub use ordered::ordered_answer;
pub use std::alloc::AllocError as OutOfMemory;
pub use synth::synth_answer;
