//! Runs with ample memory of public calls that can answer out of memory and that no command makes.
//! The crate has tests alone.
#![tactic(auto)]

#[cfg(test)]
mod tests;
