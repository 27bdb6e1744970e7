//! The formula of a candidate of a question, how large a search is, and the files that stand beside
//! what a search says.
#![tactic(auto)]

mod counts;
mod cut_laws;
mod encoding;
mod laws;
mod log_laws;
mod naming;
mod searched;
mod size;
mod vectors;

pub use counts::allowed_counts;
pub use cut_laws::{what_is_cut_away_has_no_schedule, what_is_searched_is_cut};
pub use encoding::{Encoded, encode_candidate};
pub use laws::{
    candidates_are_small, formulas_are_exact, questions_have_exact_ordered_formulas,
    reductions_are_sought_by_copying, suited_schedules_suffice, tight_solutions_solve,
};
pub use log_laws::{
    lines_are_said_without_their_faults, logs_are_read_back, logs_are_short,
    proof_texts_are_read_as_they_are_spelled,
};
pub use naming::file_name;
pub use searched::{links_to_search, own_links_to_search};
pub use size::size_number;
pub use std::alloc::AllocError as OutOfMemory;
pub use vectors::{
    counts_on_four_nodes, sizes_on_the_line_of_3, three_chunks_are_cut_away_on_the_line_of_3,
};
