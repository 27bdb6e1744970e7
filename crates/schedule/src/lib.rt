//! Topologies, placements and schedules, and the verdict on a schedule.
#![tactic(auto)]

mod bandwidth;
mod group;
mod hop;
mod judge;
pub mod laws;
mod links;
mod placement;
mod range;
mod run;
mod schedule;
mod tight;
mod topology;
pub mod vectors;
mod verdict;

pub use bandwidth::{first_overfull, load_of};
pub use group::{Group, has_link};
pub use hop::{Hop, hop_cmp};
pub use judge::{first_unlinked, solves, solves_by_run};
pub use placement::Placement;
pub use range::in_range;
pub use run::run_steps;
pub use schedule::Schedule;
pub use std::alloc::AllocError as OutOfMemory;
pub use tight::is_tight;
pub use topology::Topology;
pub use verdict::Verdict;
