//! Laws of the text of a report: it is read back, and the line that is blamed is the first that
//! fails.
#![tactic(auto)]

mod laws;

pub use laws::{
    texts_are_read_by_their_spelling, the_blamed_line_fails_first, what_is_spelled_is_read,
};
