//! What every engine owes: it settles the candidates of a question, one at a time, beside a store
//! that is lent to each call.
#![tactic(auto)]

mod engine;
mod fault;
mod recording;
mod settled;

pub use engine::{Engine, EngineView};
pub use fault::EngineFault;
pub use recording::Record;
pub use settled::Settled;
