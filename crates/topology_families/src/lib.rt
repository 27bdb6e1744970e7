//! Families of topologies that are often met.
#![tactic(auto)]

mod families;
mod family_kind;
mod family_word;
mod grouping;
mod vectors;

pub use families::family;
pub use family_kind::{FamilyKind, family_allows};
pub use std::alloc::AllocError as OutOfMemory;
pub use vectors::{families_are, family_sizes_are};
