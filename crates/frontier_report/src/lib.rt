//! The reader of reports.
#![tactic(auto)]

mod frontiers;
mod listed;
mod points;
mod reading;
mod repeats;
mod report_stop;
mod rounds;
mod sends;
mod topology;

pub use reading::read_report;
pub use report_form::{Report, ReportCode, ReportFault, Words, point_at};
pub use report_printing::print_report;
