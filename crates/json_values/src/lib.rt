//! Values of JSON, the texts that they stand for, and topologies as JSON: written, and read back.
#![tactic(auto)]

mod fault;
mod laws;
mod names;
mod reading;
mod shape;
mod token;
mod tokens;
mod topology_printing;
mod topology_reading;
mod vectors;

pub use fault::{JsonCode, JsonFault};
pub use laws::{
    line_feed_is_blank, text_of_topology_json_is_short, topology_json_stands_for_its_text,
    value_is_no_larger_than_its_bytes,
};
pub use names::{name_text, node_text};
pub use reading::text_in;
pub use shape::{count_in, has_due_keys, items_in, name_in, says};
pub use std::alloc::AllocError as OutOfMemory;
pub use token::{Keyed, Row, Token};
pub use tokens::{
    At, Behind, Each, Either, Empty, Fields, Headed, Lined, Lines, May, Nothing, Tokens,
};
pub use topology_printing::{topology_json, topology_value};
pub use topology_reading::{TopologyLines, Version, topology_from_json};
pub use vectors::{topologies_printed, topologies_read, topologies_refused};
