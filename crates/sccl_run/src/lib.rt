//! The top call: what is written, and with which status the program ends, for its words and what it
//! reads.
#![tactic(auto)]

mod commands;
mod family;
mod headline;
mod laws;
mod source_text;
mod toplevel;

pub use candidate_formula::size_number;
pub use command_words::{Command, JsonWhat, PointWord, RootWord, WordCode, WordFault, read_words};
pub use headline::{
    a_small_search_is_asked_for, what_is_printed_is_true, what_is_read_is_what_was_asked,
    what_other_searches_print_is_true,
};
pub use laws::{
    a_family_that_blames_another_port_is_wrong, a_family_that_is_left_out_is_wrong,
    a_family_that_is_written_is_right, a_refusal_that_says_or_does_more_is_wrong,
    a_refusal_that_takes_nothing_is_wrong, a_run_without_memory_that_writes_is_wrong,
    a_search_that_forgets_to_keep_is_wrong, a_search_that_loses_files_is_wrong,
    a_search_with_other_files_is_wrong, only_a_search_changes_files, optimal_has_no_better,
    refused_is_not_done, replays_are_due, runs_end_as_listed, what_a_search_wrote_is_verified,
};
pub use run_rules::{OutOfMemory, Status};
pub use toplevel::run;
