//! What keeps the desk's state: it executes commands, checks them, and answers questions.
#![tactic(auto)]

mod keeper;
mod laws;
mod report;

pub use keeper::Keeper;
pub use laws::{check_law, once_law};
pub use report::RunReport;
