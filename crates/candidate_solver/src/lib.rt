//! What settles the candidates of a search, one at a time.
#![tactic(auto)]

mod attempt;
mod files;
mod kept;
mod laws;
mod question;
mod searching;
mod trying;

pub use attempt::{Attempt, Found, outcome_of};
pub use engine_rules::{Engine, EngineFault, EngineView, Settled};
pub use kept::SatEngine;
pub use laws::{lines_of_a_search_are_read_back, the_log_refutes_the_last_candidate};
pub use question::Question;
