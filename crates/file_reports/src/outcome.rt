//! The outcome of a check.
ghost use Rattle.std.specs.Prelude.{◌≡◌, None, IfErr, IfOk, OnOk};
ghost use Rattle.std.specs.Io.KnownBytes.{Appends};
ghost use Rattle.file_reports.specs.Endings.{EndsEarly};
ghost use Rattle.file_reports.specs.Outcomes as spec;

use crate::barred::DeskIndex;
use crate::ending::ReportError;
use crate::file_report::FileReport;
use crate::json::write_object;
use crate::open_error::OpenError;
use crate::report::{write_file_report, write_open_error, write_report};
use plant_check::Findings;
use plant_text::{WriteError, write_text};
use std::alloc::Global;
use std::io::Write;

/// The outcome of a check: why the file doesn't open, and what it holds, where that could be read.
#[derive(Drop)]
pub struct CheckOutcome {
    /// Why the file doesn't open, or what keeps the desk from it all the same.
    pub open_error: Option<OpenError>,
    /// What the file holds, where that could be read.
    pub file_report: Option<FileReport>,
}

/// The outcome of a check whose bytes were surveyed so, of a file from which else this keeps the desk.
pub fn outcome_of(
    reported_on: Result<FileReport, OpenError>,
    hindered: Option<OpenError>,
) -> CheckOutcome
    ensures { result ≡ spec.outcome_of reported_on hindered }
{
    match reported_on {
        Err(open_error) => CheckOutcome {
            open_error: Some(open_error),
            file_report: None,
        },
        Ok(file_report) => CheckOutcome {
            open_error: hindered,
            file_report: Some(file_report),
        },
    }
}

/// The exit status by what is found of a desk: 0 where that is nothing, and else 3.
fn findings_status(findings: &Findings) -> u8
    ensures { result ≡ spec.findings_status findings.now }
{
    match findings {
        Findings::NoMeta | Findings::Values(_) => 3,
        Findings::Rows(tested) => match tested.rules.as_slice() {
            [] => 0,
            [_, ..] => 3,
        },
    }
}

/// The exit status, which is this where no index is barred.
fn status_unless(barred: Option<DeskIndex>, status: u8) -> u8
    ensures { result ≡ spec.status_unless barred status }
{
    match barred {
        None => status,
        Some(_) => 3,
    }
}

/// The exit status by what a file holds that opens: 0 where that is a desk that breaks no rule, 1 where it is none and one can be made
/// in it, and else 3.
fn file_report_status(file_report: &FileReport) -> u8
    ensures { result ≡ spec.file_report_status file_report.now }
{
    match file_report {
        FileReport::Nothing(barred) => status_unless(*barred, 1),
        FileReport::Newer(_) | FileReport::Lacking(_) => 3,
        FileReport::Desk {
            barred,
            findings,
            ..
        } => status_unless(*barred, findings_status(findings)),
    }
}

/// The exit status by what is held, which is 3 where that isn't known.
fn held_status(file_report: &Option<FileReport>) -> u8
    ensures { result ≡ spec.held_status file_report.now }
{
    match file_report {
        None => 3,
        Some(file_report) => file_report_status(file_report),
    }
}

/// The exit status by why a file doesn't open: 4 for want of memory, and else 3.
fn open_error_status(open_error: OpenError) -> u8
    ensures { result ≡ spec.open_error_status open_error }
{
    match open_error {
        OpenError::Memory => 4,
        _ => 3,
    }
}

impl CheckOutcome {
    /// The exit status: 4 for want of memory, 3 where the file doesn't open or its desk breaks a rule or is of a later program, 1
    /// where it opens and holds no desk, and else 0.
    pub fn status(&self) -> u8
        ensures { result ≡ spec.outcome_status self.now }
    {
        match &self.open_error {
            None => held_status(&self.file_report),
            Some(open_error) => open_error_status(*open_error),
        }
    }
}

/// Writes that the file opens.
fn write_opens<W: Write>(writer: &mut W) -> Result<(), ReportError>
    ensures { OnOk result (spec.WritesOpening None (W.contents writer.old) (W.contents writer.new)) }
{
    write_report(writer, b"The file opens.")
}

/// Writes whether the file opens, and why not.
fn write_opening<W: Write>(
    alloc: Global,
    writer: &mut W,
    open_error: &Option<OpenError>,
) -> Result<(), ReportError>
    ensures { OnOk result (spec.WritesOpening open_error.now (W.contents writer.old) (W.contents writer.new)) }
{
    match open_error {
        None => write_opens(writer),
        Some(open_error) => write_open_error(alloc, writer, *open_error),
    }
}

fn write_held<W: Write>(
    alloc: Global,
    writer: &mut W,
    file_report: &Option<FileReport>,
) -> Result<(), ReportError>
    ensures { OnOk result (Appends (W.contents writer.old) (W.contents writer.new)
        (spec.held_text file_report.now)) }
{
    match file_report {
        None => Ok(()),
        Some(file_report) => write_file_report(alloc, writer, file_report),
    }
}

/// Writes an outcome in sentences: whether the file opens, and why not, then what it holds, and which rules that breaks.
fn write_sentences<W: Write>(
    alloc: Global,
    writer: &mut W,
    outcome: &CheckOutcome,
) -> Result<(), ReportError>
    ensures { OnOk result (spec.WritesSentences outcome.now (W.contents writer.old) (W.contents writer.new)) }
{
    write_opening(alloc, writer, &outcome.open_error)?;
    write_held(alloc, writer, &outcome.file_report)
}

/// The text of an outcome, in sentences or as one JSON object in a line.
fn outcome_text(alloc: Global, json: bool, outcome: &CheckOutcome) -> Result<Vec<u8>, ReportError>
    ensures text { IfOk result (λ text. spec.IsOutcomeText json outcome.now text.items) }
    ensures memory { IfErr result (λ error. error ≡ ReportError.Memory) }
{
    let mut text = Vec::new(alloc);
    let written = if json {
        write_object(alloc, &mut text, outcome)
    } else {
        write_sentences(alloc, &mut text, outcome)
    };
    match written {
        Ok(()) => Ok(text),
        // A vector takes all bytes but for want of memory.
        Err(_) => Err(ReportError::Memory),
    }
}

/// Writes an outcome, in sentences or as one JSON object in a line.
///
/// - `Write`: the writer took a front of the text, perhaps nothing, and no more.
/// - `Memory`: there was none for the text. Nothing is written.
pub fn write_outcome<W: Write>(
    alloc: Global,
    writer: &mut W,
    json: bool,
    outcome: &CheckOutcome,
) -> Result<(), ReportError>
    ensures whole { OnOk result (spec.WritesOutcome json outcome.now (W.contents writer.old) (W.contents writer.new)) }
    ensures early { IfErr result (λ error. EndsEarly json outcome.now error (W.contents writer.old)
        (W.contents writer.new)) }
{
    let text = outcome_text(alloc, json, outcome)?;
    match write_text(writer, text.as_slice()) {
        Ok(()) => Ok(()),
        Err(WriteError) => Err(ReportError::Write),
    }
}
