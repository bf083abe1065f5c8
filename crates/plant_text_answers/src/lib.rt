//! The texts of replies, of faults and of answers: JSON (RFC 8259) with no blanks.
//! The batch record as a text: what was asked for, what happened, and what was consumed and produced.
#![tactic(auto)]

mod answers;
mod balances;
mod batch_answers;
mod batch_rows;
mod command_rows;
mod edge_answers;
mod found_answers;
mod further_rows;
mod head;
mod items;
mod lines;
mod list_answers;
mod listed_rows;
mod lot_answers;
mod parts;
mod recall_answers;
mod recipe_answers;
mod replies;
mod stock_rows;
mod totals;
mod trace_answers;
mod whole;

pub use answers::answer_text;
pub use replies::{ReplyText, fault_line, reply_line};
pub use whole::record;
