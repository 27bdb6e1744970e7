//! Chunks that are alike may be exchanged, so it is enough to look for schedules in which they come
//! in the order of their numbers.
#![tactic(auto)]

mod alike;
mod laws;
mod ordering;
mod vectors;

pub use laws::{
    alike_chunks_have_one_watch_node, chunks_are_alike_exactly, ordered_formulas_are_exact,
    ordered_formulas_say_ordered_schedules, ordered_schedules_suffice,
};
pub use ordering::order_clauses;
pub use std::alloc::AllocError as OutOfMemory;
pub use vectors::{
    chunks_of_a_broadcast_are_alike, chunks_of_an_alltoall_differ,
    chunks_that_are_there_have_no_order, copies_are_alike, each_chunk_with_the_next,
    in_turn_is_ordered, out_of_turn_is_not_ordered, two_chunks_over_the_line_of_3,
};
