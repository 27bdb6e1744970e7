//! Tables of words and their numbers, looked up both ways.
#![tactic(auto)]

mod row;
mod table;
mod vectors;

pub use row::Row;
pub use table::Table;
pub use vectors::{look_ups_go_both_ways, no_word_and_no_number_stand_twice};
