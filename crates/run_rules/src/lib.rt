//! What the top call and every command stand on: statuses, refusals and answers; what each command
//! does with the ports; what is due for words and bytes; and what an answer to it is.
#![tactic(auto)]

mod answer;
mod halt;
mod laws;
mod reading;
mod search_text;
mod searchable;
mod status;
mod vectors;
mod verdicts;

pub use answer::{Answer, LIMIT, refusal, refusal_at, refused_word, too_long};
pub use halt::Halt;
pub use laws::{
    answers_end_as_listed, audits_say_their_verdict, claims_and_checks_agree,
    faults_are_answered_by_the_checks, trials_are_proved,
};
pub use reading::reads_source;
pub use search_text::{Search, SearchText, bad_topology, search_of_text};
pub use searchable::search_refusal;
pub use status::Status;
pub use std::alloc::AllocError as OutOfMemory;
pub use vectors::{reports_due, searches_due, sizes, tasks_due, words_due};
pub use verdicts::verdict_answer;
