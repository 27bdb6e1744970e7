//! What a search writes its lines to, the proof log of a CDCL solver: ledgers beside a store. A
//! line is an LRAT addition (RUP); one that has a literal is a learned clause.
#![tactic(auto)]

mod checked;
mod counted;
mod ghost_lines;
mod kept;
mod line_log;
mod pair;
mod shelved;

pub use checked::CheckedLedger;
pub use counted::CountedLedger;
pub use kept::KeptLedger;
pub use ledger_rules::{Ledger, LedgerFault, LedgerView};
pub use line_log::LineLog;
pub use pair::PairLedger;
pub use shelved::ShelfLedger;
