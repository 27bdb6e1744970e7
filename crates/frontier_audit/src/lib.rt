//! Whether a report and the files beside it are right: the checks of an audit, in their order.
#![tactic(auto)]

mod answered;
mod auditing;
mod files;
mod joins;
mod laws;
mod part_question;
mod parts;
mod solutions;
mod vectors;
mod verdict;

pub use auditing::audit;
pub use laws::{
    ascending_lists_are_told_by_their_members, candidates_are_those_within,
    proving_files_are_right, refuted_has_files, refuted_has_no_solution, refuted_is_unsatisfiable,
    right_is_verified, unknown_has_a_log, verified_is_right, verified_shelf_is_right,
};
pub use proof_audit::AuditFault;
pub use vectors::{
    allreduce_audited, altered_files_audited, candidates, copies_audited, cuts_audited,
    formula_of_one_step, lines, order_of_audit, orders_audited, relay_audited, unknown_audited,
};
pub use verdict::{AuditVerdict, Reason};
