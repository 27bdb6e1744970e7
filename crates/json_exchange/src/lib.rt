//! Topologies, reports and programs as JSON: written, and topologies and reports read back.
#![tactic(auto)]

mod report_reading;

pub use json_programs::programs_json;
pub use json_reports::report_json;
pub use json_values::{JsonCode, JsonFault, topology_from_json, topology_json};
pub use report_reading::report_from_json;
pub use std::alloc::AllocError as OutOfMemory;
