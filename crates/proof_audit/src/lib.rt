//! Whether a file beside a report is what it has to be: the text of a formula, a refutation of it,
//! or a spent log of it.
#![tactic(auto)]

mod fault;
mod files;
mod judge;
mod laws;
mod line_test;
mod lines_judge;
mod log_test;
mod refutation_test;
mod text_judge;
mod verdict;

pub use fault::AuditFault;
pub use files::{formula_file, log_file, refutation_file};
pub use laws::files_that_stand_refute;
pub use verdict::FileVerdict;
