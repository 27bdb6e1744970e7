//! Topologies whose nodes have names, with the pattern of a collective where one is given: their
//! one spelling, read and printed.
#![tactic(auto)]

mod fault;
mod group_line;
mod link_word;
mod name;
mod named_topology;
mod names_printing;
mod nodes_line;
mod parts;
mod pattern;
mod pattern_lines;
mod printing;
mod reading;

pub use fault::{TopologyCode, TopologyFault};
pub use name::Name;
pub use named_topology::NamedTopology;
pub use names_printing::{push_node_field, push_node_name};
pub use parts::{groups_part, header_part, nodes_part};
pub use pattern::pattern_part;
pub use printing::{print_topology, push_topology};
pub use reading::{read_topology, topology_part};
pub use std::alloc::AllocError as OutOfMemory;
