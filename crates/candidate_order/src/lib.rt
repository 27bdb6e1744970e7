//! Candidates of a search, their costs, and the order in which they are tried.
#![tactic(auto)]

mod candidate;
mod frontier;
mod frontier_laws;
mod laws;
mod limits;
mod listing;
mod mark;
mod order;
mod outcome;
mod point;
mod pruning;
mod vectors;

pub use candidate::Candidate;
pub use frontier::{Frontier, Unknown};
pub use frontier_laws::{
    better_than_optimal_is_refuted, each_point_does_what_is_asked, no_point_is_dominated,
    no_point_is_refuted, no_point_settles_a_later_one, nothing_said_is_right_only_of_nothing,
    open_points_may_be_bettered, settled_frontiers_agree,
};
pub use laws::{
    before_is_irreflexive, before_is_total, before_is_transitive, better_comes_before,
    listed_are_within, no_worse_is_reflexive, no_worse_is_transitive,
};
pub use limits::{Limits, MAX_CHUNKS, MAX_CONFLICTS, MAX_K, MAX_STEPS};
pub use listing::list;
pub use mark::Mark;
pub use order::{better, comes_before, cost_cmp, no_worse};
pub use outcome::Outcome;
pub use point::Point;
pub use pruning::Pruning;
pub use std::alloc::AllocError as OutOfMemory;
pub use vectors::{
    candidates_in_order, costs_of_candidates, one_node_has_gathered, one_send_broadcasts,
    one_send_moves_a_given_chunk, one_send_reduces, two_nodes_alone_do_nothing,
};
