//! How a check ends: why its report isn't whole, and the exit status.
ghost use Rattle.std.specs.Prelude.{◌≡◌, Some};
ghost use Rattle.file_reports.specs.Endings.{status_of, report_error_text};

use crate::outcome::CheckOutcome;
use std::fmt;

/// Why the report of a check isn't whole.
#[derive(Clone, Copy, Debug, PartialEq, Eq)]
pub enum ReportError {
    /// A text couldn't be written whole.
    Write,
    /// Memory was refused.
    Memory,
}

impl fmt::Display for ReportError {
    ghost output = { λ report_error. Some (report_error_text report_error) };

    fn fmt<W: fmt::Write>(&self, f: &mut fmt::Formatter<W>) -> fmt::Result {
        f.write_str(match self {
            ReportError::Write => "fault: write",
            ReportError::Memory => "fault: memory",
        })
    }
}

/// The exit status of a check of this outcome, which was reported whole or not.
pub fn status_of(outcome: &CheckOutcome, reported: &Result<(), ReportError>) -> u8
    ensures { result ≡ status_of outcome.now reported.now }
{
    match reported {
        Ok(()) => outcome.status(),
        Err(ReportError::Write) => 3,
        Err(ReportError::Memory) => 4,
    }
}
