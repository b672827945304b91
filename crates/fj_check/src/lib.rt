//! Histories as text: [`check`] reads one from any reader, and says whether each of its lines may stand where it does.
#![tactic(auto)]

mod check_history;
mod fault;
mod history_check;
mod history_stop;

pub use check_history::{check, check_fault};
pub use fault::CheckFault;
pub use history_check::{HistoryCheck, check_line, read_heading};
pub use history_stop::HistoryStop;
