//! Laws of lists and of tests over them, whatever the lists contain: proofs alone.
#![tactic(auto)]
