//! Texts as lines and tokens, and numbers in canonical decimal.
#![tactic(auto)]

mod digits;
mod fields;
mod line;
mod lines;
mod number;
mod scan;
mod stop;
mod tokens;

pub use digits::push_number_reserved;
pub use fields::push_number_field;
pub use line::Line;
pub use lines::Lines;
pub use number::{push_number, push_word, read_number};
pub use scan::end_of;
pub use std::alloc::AllocError as OutOfMemory;
pub use stop::Stop;
pub use tokens::{Token, Tokens, tokens_of};
