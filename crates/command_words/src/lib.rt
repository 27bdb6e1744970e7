//! The words of the command line, and what they ask for.
#![tactic(auto)]

mod building;
mod command;
mod fault;
mod given;
mod key;
mod kind_word;
mod reading;
mod vectors;
mod verb;
mod what_word;

pub use command::{Command, JsonWhat, PointWord, RootWord, SearchWords};
pub use fault::{WordCode, WordFault};
pub use reading::read_words;
pub use vectors::{
    codes_are_numbered, commands_are_read, first_refusal_counts, keys_of_one_word_are_read,
    keys_of_one_word_are_refused, more_commands_are_read, numbers_in_their_ranges, refusals,
    words_without_a_key,
};
