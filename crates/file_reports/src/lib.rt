//! What an opened store holds of a desk, or why a file doesn't open: in sentences, as one JSON object, and as an exit status.
#![tactic(auto)]

mod barred;
mod bound;
mod ending;
mod file_report;
mod json;
mod open_error;
mod outcome;
mod report;

pub use barred::DeskIndex;
pub use bound::{Binder, with_binder};
pub use ending::{ReportError, status_of};
pub use file_report::{FileReport, FileSummary, report_on_store};
pub use open_error::{OpenError, open_error_in, open_error_of, open_error_of_sibling};
pub use outcome::{CheckOutcome, outcome_of, write_outcome};
