//! Lines of a report: the tokens of each, what it says, and the first check of it that fails.
#![tactic(auto)]

mod candidates;
mod digits;
mod fields;
mod heads;
mod lines;
mod question;
mod synth_line;

pub use candidates::{WideCandidate, candidate_behind, candidate_of, joins};
pub use digits::{next_digits, spells};
pub use fields::{fixed_word, next_node, next_number, no_more, small_number};
pub use heads::{Head, head_part, joined_head_part};
pub use lines::{fixed_part, last_part, next_begins, next_line, tokens_on, version_part};
pub use question::Question;
pub use synth_line::{Asked, asked_part};
