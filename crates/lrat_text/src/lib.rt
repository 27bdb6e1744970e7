//! Formulas as DIMACS CNF text, and proofs as LRAT text: how they are printed, and how proofs are
//! read.
#![tactic(auto)]

mod fault;
mod fields;
mod holding;
mod laws;
mod lines;
mod numbers;
mod printing;
mod reader;
mod tokens;
mod vectors;

pub use cnf_formula::LratLine;
pub use fault::LratTextFault;
pub use printing::{print_cnf, print_deletion, print_line};
pub use reader::LratReader;
