//! The report that a command is given as a text, or the answer that refuses it.
#![tactic(auto)]

mod report_text;

pub use report_text::{ReportText, report_of_text};
