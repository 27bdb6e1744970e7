//! Reports of a search: their values, their text, and the checks of a text.
#![tactic(auto)]

mod fault;
mod laws;
mod numbered;
mod part_line;
mod question;
mod report;
mod vectors;
mod words;

pub use fault::{ReportCode, ReportFault};
pub use laws::{one_line_fails_first, tests_decide, what_is_read_is_spelled};
pub use numbered::point_at;
pub use part_line::part_bytes;
pub use question::{kind_of_part, spec_of_part};
pub use report::Report;
pub use vectors::{
    broadcasts_refused, numbers_checked, order_of_checks, order_of_lines, patterns_refused,
    prunings_refused, relays_refused, texts, texts_read, versions_refused,
};
pub use words::Words;
