//! The commands over a report: `check`, `replay` and `programs`; and `degrade`, which audits it and
//! has its search done anew over the links that a fault leaves.
#![tactic(auto)]

mod check;
mod degrade;
mod fault;
mod programming;
mod replaying;

pub use check::check_answer;
pub use degrade::degrade_answer;
pub use degraded_search::LinkFault;
pub use programming::programs_answer;
pub use replaying::replay_answer;
pub use std::alloc::AllocError as OutOfMemory;
