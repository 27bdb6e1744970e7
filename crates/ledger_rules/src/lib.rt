//! What every ledger owes: where a search writes its lines, beside a store that is lent to each
//! call.
#![tactic(auto)]

mod fault;
mod hints;
mod ledger;
mod line_list;

pub use fault::LedgerFault;
pub use ledger::{Ledger, LedgerView};
pub use line_list::LineList;
