//! Whole runs of the top call over ports in memory: tests alone, so that the top call is not proved
//! once more with them.
#![tactic(auto)]

#[cfg(test)]
mod tests;
