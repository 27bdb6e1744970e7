//! The system's calls: each method is one of them.
#![tactic(auto)]

mod number_calls;
mod numbers;
mod system_files;
mod system_numbers;
mod words;

pub use number_calls::{NumberCalls, Stream};
pub use numbers::{Held, hold_numbers};
pub use system_files::SystemFiles;
pub use system_numbers::SystemNumbers;
pub use words::behind_name;
