//! What the JSON of reports and of programs is, and which JSON stands for a report.
#![tactic(auto)]

mod laws;

pub use laws::{report_is_of_its_form, topology_is_of_its_form};
