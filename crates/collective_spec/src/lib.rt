//! Collectives: their kinds, and where their chunks are before and after.
#![tactic(auto)]

mod collective;
mod instance;
mod kind;
mod laws;
mod layout;
mod pattern;
mod spec;
mod vectors;

pub use collective::Collective;
pub use instance::{Instance, chunks_of, demand_of, instance_of, reduces};
pub use kind::{Kind, allows, is_custom, takes_root};
pub use laws::{
    copies_stand_where_the_pattern_does, one_copy_is_the_pattern, reduce_inverts_broadcast,
    reducescatter_inverts_allgather, root_counts_where_taken, what_fits_is_a_spec,
    what_is_asked_has_its_size,
};
pub use layout::Layout;
pub use pattern::Pattern;
pub use spec::{Spec, spec_demand, spec_instance};
pub use std::alloc::AllocError as OutOfMemory;
pub use vectors::{
    a_pattern_is_copied, adding_on_three_nodes, chunk_counts, copying_on_three_nodes,
    patterns_are_copied,
};
