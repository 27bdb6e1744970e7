//! The printer of reports.
#![tactic(auto)]

mod printing;

pub use printing::{
    print_report, push_all_refuted, push_all_unknown, push_candidate, push_points, push_synth_line,
};
