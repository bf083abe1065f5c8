//! What the subcommands of the program do over an opened store and the three standard streams, and how the program ends.
#![tactic(auto)]

mod adopting;
mod answered;
mod fault;
mod fault_lines;
mod importing_orders;
mod lines;
mod performing;
mod printing;
mod ready;
mod session;
mod summary;
mod verification;

pub use adopting::{Performed, TaskError, adopt, performed_of};
pub use answered::write_answer;
pub use fault::ProgramFault;
pub use fault_lines::{write_opening, write_words_fault};
pub use importing_orders::take_file;
pub use performing::{after_closing, perform, perform_task, write_outcome};
pub use ready::init;
pub use session::{Session, run};
pub use verification::verify;
