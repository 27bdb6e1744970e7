//! Each call is made once, and does not answer out of memory; searches have the answer that is
//! wanted.

mod cuts;
mod pigeons;
mod unreached;
