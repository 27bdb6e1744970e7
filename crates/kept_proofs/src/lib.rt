//! Refutations that stand on a shelf already are taken up in place of a search: an engine above the
//! one that searches.
#![tactic(auto)]

mod engine;
mod judging;

pub use engine::KeptEngine;
pub use engine_rules::{Engine, EngineFault, EngineView, Settled};
