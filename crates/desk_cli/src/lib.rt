//! The arguments of the command line: what the desk's program has to do.
#![tactic(auto)]

mod argument;
mod check_fault;
mod checking;
mod command_line;
mod desk_checking;
mod field_names;
mod hosts;
mod laws;
mod line_checking;
mod matched;
mod meaning;
mod read;
mod taken;
mod values;

pub use argument::Argument;
pub use check_fault::CheckFault;
pub use checking::read_order_check;
pub use desk_checking::{DeskCheck, read_desk_check};
pub use hosts::Hosts;
pub use laws::plain_words_law;
pub use line_checking::{LineCheck, read_line_check};
pub use meaning::{Serving, Task, Words, WordsFault, Work};
pub use read::{read_words, refusal_of};
pub use taken::{print_refused, read_arguments, texts_of};
