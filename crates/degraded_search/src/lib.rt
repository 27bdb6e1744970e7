//! The search of a report done anew over the links that a fault left, where what was refuted stays
//! refuted, and its text.
#![tactic(auto)]

mod anew;
mod empty_shelf;
mod fault;
mod found;
mod old_refuted;
mod printing;
mod searching;

pub use anew::search_anew;
pub use fault::LinkFault;
pub use std::alloc::AllocError as OutOfMemory;
