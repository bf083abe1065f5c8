//! Why the desk answers a command with BadForm whatever its state, in words.
//! What a check of a command is answered, and its text: JSON (RFC 8259) with no blanks.
#![tactic(auto)]

mod answers;
mod checks;
mod command_errors;
mod reason;

pub use answers::{CheckAnswer, check_text};
pub use checks::command_answer;
pub use command_errors::{CommandError, command_error_of};
pub use reason::Reason;
