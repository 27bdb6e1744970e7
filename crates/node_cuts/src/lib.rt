//! Cuts: what has to come into a set of nodes, and what can in so many rounds. Where the first is
//! more, no schedule of so many rounds solves; and the floor says how many rounds each schedule has
//! for its chunk count.
#![tactic(auto)]

mod alone;
mod covering;
mod cut;
mod floor;
mod greedy;
mod holders;
pub mod laws;
mod mask;
mod measure;
mod members;
mod open_links;
mod refuting;
mod sets;
mod side;
mod table;
pub mod vectors;
mod widths;

pub use cut::Cut;
pub use floor::{Floor, floor_of};
pub use mask::has_node;
pub use measure::Measure;
pub use refuting::first_cut;
pub use sets::Sets;
pub use std::alloc::AllocError as OutOfMemory;
pub use table::CutTable;
