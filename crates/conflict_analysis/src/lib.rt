//! What is learned from a conflict of a core (conflict analysis): a clause through the first unique
//! implication point (UIP), with one literal of a lower level for all of them (shrinking) or
//! without those that the others imply (clause minimisation), the hints by which it is accepted
//! (RUP with hints, LRAT), and on how many levels it is false (LBD).
#![tactic(auto)]

mod analyze;
mod glue;
mod implied;
mod level_point;
mod meeting;
mod place_set;
mod seen;
mod shrinking;
mod sought;
mod unit_line;
mod walk;

pub use analyze::line_at;
pub use glue::Glue;
pub use implied::Implied;
pub use unit_line::unit_at;
pub use walk::Walk;
