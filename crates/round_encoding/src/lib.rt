//! The formula of a candidate: it is satisfiable exactly where some schedule of so many steps and
//! rounds solves the instance.
#![tactic(auto)]

mod carrying;
mod encoding;
mod extra;
mod grouping;
mod laws;
mod rounding;
mod schedule_said;
mod vectors;

pub use encoding::{Encoding, encode};
pub use laws::{formula_has_its_variables, formulas_are_small, layouts_make_candidates};
pub use schedule_said::decode;
pub use std::alloc::AllocError as OutOfMemory;
