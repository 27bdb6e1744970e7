//! Reports as JSON, and the text that a report's JSON stands for.
#![tactic(auto)]

mod laws;
mod report_reading;
mod report_writing;
mod vectors;

pub use laws::{report_json_stands_for_its_text, text_of_report_json_is_short};
pub use report_reading::ReportLines;
pub use report_writing::report_json;
pub use std::alloc::AllocError as OutOfMemory;
pub use vectors::{reports_printed, reports_read, reports_refused};
