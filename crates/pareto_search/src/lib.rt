//! The search for the Pareto frontier of a question, over any engine.
#![tactic(auto)]

mod findings;
mod searching;
mod trying;

pub use searching::search;
