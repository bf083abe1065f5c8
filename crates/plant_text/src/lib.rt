//! The desk in lines of JSON (RFC 8259): what a line says, the texts of replies and answers, and the run over the
//! lines of an input; and the batch record, which is no JSON.
#![tactic(auto)]

mod checks;
mod read;
mod run;
mod turns;
mod writes;

pub use checks::{answer_check, checks_match_replies_law};
pub use plant_json_in::{FormatError, LineFault, ReadFault, ToCheck};
pub use plant_orders::{CsvFault, CsvKind, read_orders};
pub use plant_text_answers::{ReplyText, answer_text, fault_line, record, reply_line};
pub use plant_text_checks::{CheckAnswer, check_text};
pub use read::{Line, read_line, read_line_or_error, read_to_check};
pub use run::{RunEnd, run_lines, run_lines_within};
pub use turns::{TurnError, is_unknown, take_command, write_fault};
pub use writes::{WriteError, write_both, write_line, write_text};
