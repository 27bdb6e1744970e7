//! Which variable a search decides next and as what (VSIDS, VMTF, phase saving), when it begins
//! anew (by averages of LBD, or by the Luby sequence), and its stable and focused turns. What is
//! decided is open; no proof hangs on which of the open literals it is.
#![tactic(auto)]

mod averages;
mod deciding;
mod inputs;
mod luby;
mod restarts;
mod turns;
mod vmtf;
mod vsids;

pub use deciding::Decider;
pub use restarts::Restarts;
pub use turns::Mode;
