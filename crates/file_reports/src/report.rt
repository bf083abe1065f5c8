//! The report on a file, in sentences.
ghost use Rattle.std.specs.Prelude.{◌≡◌, ℕ, List, ◌++◌, IfOk, IfSome, OnOk, Some, codes};
ghost use Rattle.std.specs.Prelude.{string_bytes};
ghost use Rattle.std.specs.Io.KnownBytes.{Appends};
ghost use Rattle.plant_text.specs.{with_lf};
ghost use Rattle.file_reports.specs.OpenErrors.{IsErrorText, closed_text, error_of};
ghost use Rattle.file_reports.specs.Outcomes.{WritesOpening};
ghost use Rattle.file_reports.specs.Reports as spec;

use crate::barred::DeskIndex;
use crate::bound::Binder;
use crate::ending::ReportError;
use crate::file_report::{FileReport, FileSummary};
use crate::open_error::OpenError;
use plant_check::{Findings, RowFault, Tested, rule_text};
use plant_check_rules::Rule;
use plant_text::{WriteError, write_line};
use sqlite::Error;
use std::alloc::{AllocError, Global};
use std::fmt;
use std::io::Write;

/// Writes a text and an LF.
pub(crate) fn write_report<W: Write>(writer: &mut W, text: &[u8]) -> Result<(), ReportError>
    ensures { OnOk result (Appends (W.contents writer.old) (W.contents writer.new) (with_lf text.now)) }
{
    match write_line(writer, text) {
        Ok(()) => Ok(()),
        Err(WriteError) => Err(ReportError::Write),
    }
}

/// Writes what is shown, and an LF.
fn write_shown<W: Write, T: fmt::Display>(
    alloc: Global,
    writer: &mut W,
    shown: &T,
) -> Result<(), ReportError>
    ensures { OnOk result (IfSome (T.output shown.now)
        (λ text. Appends (W.contents writer.old) (W.contents writer.new) (with_lf text))) }
{
    match shown.to_string(alloc) {
        Ok(text) => write_report(writer, text.as_bytes()),
        Err(_) => Err(ReportError::Memory),
    }
}

/// That a rule is broken, without its row.
#[derive(Clone, Copy)]
struct BrokenRule(Rule);

impl fmt::Display for BrokenRule {
    ghost output = { λ reported. Some (spec.rule_line reported.0) };

    fn fmt<W: fmt::Write>(&self, f: &mut fmt::Formatter<W>) -> fmt::Result {
        let number = self.0.number();
        let text = rule_text(self.0);
        write!(f, "Rule {number} is broken: {text}.")
    }
}

impl fmt::Display for FileSummary {
    ghost output = { λ summary. Some (spec.summary_text summary) };

    fn fmt<W: fmt::Write>(&self, f: &mut fmt::Formatter<W>) -> fmt::Result {
        let schema = self.schema;
        let seq = self.seq;
        let at = self.at;
        write!(
            f,
            "It holds a desk of schema {schema} and {seq} commands, the last at {at}."
        )
    }
}

/// How many rows a desk has of some tables.
#[derive(Clone, Copy)]
struct Counts(FileSummary);

impl fmt::Display for Counts {
    ghost output = { λ reported. Some (spec.counts_text reported.0) };

    fn fmt<W: fmt::Write>(&self, f: &mut fmt::Formatter<W>) -> fmt::Result {
        let orders = self.0.orders;
        let batches = self.0.batches;
        let lots = self.0.lots;
        let movements = self.0.movements;
        write!(
            f,
            "Orders: {orders}, batches: {batches}, lots: {lots}, movements: {movements}."
        )
    }
}

/// That a desk is of a later program, in tables of this schema.
#[derive(Clone, Copy)]
struct Later(u64);

impl fmt::Display for Later {
    ghost output = { λ reported. Some (spec.newer_text reported.0) };

    fn fmt<W: fmt::Write>(&self, f: &mut fmt::Formatter<W>) -> fmt::Result {
        let schema = self.0;
        write!(
            f,
            "Its tables are of schema {schema}, as a later program writes them: run that program."
        )
    }
}

/// That something else bears the name of an index.
#[derive(Clone, Copy)]
struct TakenName(DeskIndex);

impl fmt::Display for TakenName {
    ghost output = { λ reported. Some (spec.index_text reported.0) };

    fn fmt<W: fmt::Write>(&self, f: &mut fmt::Formatter<W>) -> fmt::Result {
        let name = self.0.name();
        write!(
            f,
            "Something else has the name {name}, which the desk needs for an index: give it another name with sqlite3."
        )
    }
}

impl fmt::Display for Binder {
    ghost output = { λ binder. Some (spec.binder_text binder) };

    fn fmt<W: fmt::Write>(&self, f: &mut fmt::Formatter<W>) -> fmt::Result {
        let table = self.table.name();
        let name = self.name.as_str();
        write!(
            f,
            "table {table}: somebody else's trigger or index {name} keeps it from standing as it is declared: drop it with sqlite3."
        )
    }
}

/// What an obstacle is, and what to do about it.
#[derive(Clone, Copy)]
struct Cause(OpenError);

impl fmt::Display for Cause {
    ghost output = { λ reported. Some (spec.open_error_text reported.0) };

    fn fmt<W: fmt::Write>(&self, f: &mut fmt::Formatter<W>) -> fmt::Result {
        let cause = self.0.cause();
        let advice = self.0.advice();
        write!(f, "{cause} {advice}")
    }
}

/// Writes a rule that is broken, and its row where one is known.
fn write_broken<W: Write>(
    alloc: Global,
    writer: &mut W,
    rule: Rule,
    row: &Option<RowFault>,
) -> Result<(), ReportError>
    ensures { OnOk result (Appends (W.contents writer.old) (W.contents writer.new)
        (spec.broken_text rule row.now)) }
{
    write_shown(alloc, writer, &BrokenRule(rule))?;
    match row {
        None => Ok(()),
        Some(row) => write_shown(alloc, writer, row),
    }
}

/// Writes what is found of a rule, where something is.
fn write_rule<W: Write>(
    alloc: Global,
    writer: &mut W,
    tested: &Tested,
    rule: Rule,
) -> Result<(), ReportError>
    ensures { OnOk result (Appends (W.contents writer.old) (W.contents writer.new)
        (spec.found_text (spec.found_in tested.now rule))) }
{
    match tested.of_rule(alloc, rule) {
        Ok(None) => Ok(()),
        Ok(Some(finding)) => write_broken(alloc, writer, finding.rule, &finding.row),
        Err(_) => Err(ReportError::Memory),
    }
}

/// Writes the rules that are broken, each with its row.
fn write_each_rule<W: Write>(
    alloc: Global,
    writer: &mut W,
    tested: &Tested,
    rules: &[Rule],
) -> Result<(), ReportError>
    ensures { OnOk result (Appends (W.contents writer.old) (W.contents writer.new)
        (spec.each_text tested.now rules.now)) }
{
    for rule in rules {
        write_rule(alloc, writer, tested, *rule)?;
    }
    Ok(())
}

/// Writes which rules rows break that were tested, or that they break none.
fn write_tested<W: Write>(alloc: Global, writer: &mut W, tested: &Tested) -> Result<(), ReportError>
    ensures { OnOk result (Appends (W.contents writer.old) (W.contents writer.new)
        (spec.tested_text tested.now tested.now.rules.items)) }
{
    match tested.rules.as_slice() {
        [] => write_report(writer, b"No rule is broken."),
        [_, ..] => write_each_rule(alloc, writer, tested, tested.rules.as_slice()),
    }
}

/// Writes which rules a desk breaks, or that it breaks none.
fn write_findings<W: Write>(
    alloc: Global,
    writer: &mut W,
    findings: &Findings,
) -> Result<(), ReportError>
    ensures { OnOk result (Appends (W.contents writer.old) (W.contents writer.new)
        (spec.findings_text findings.now)) }
{
    match findings {
        Findings::NoMeta => write_broken(alloc, writer, Rule::Tables, &None),
        Findings::Values(row) => write_broken(alloc, writer, Rule::Values, row),
        Findings::Rows(tested) => write_tested(alloc, writer, tested),
    }
}

/// Writes of an index that can't be made, where there is one.
fn write_barred<W: Write>(
    alloc: Global,
    writer: &mut W,
    barred: Option<DeskIndex>,
) -> Result<(), ReportError>
    ensures { OnOk result (Appends (W.contents writer.old) (W.contents writer.new)
        (spec.barred_text barred)) }
{
    match barred {
        None => Ok(()),
        Some(index) => write_shown(alloc, writer, &TakenName(index)),
    }
}

/// Writes that a file holds no desk, and whether one can be made in it.
fn write_nothing<W: Write>(
    alloc: Global,
    writer: &mut W,
    barred: Option<DeskIndex>,
) -> Result<(), ReportError>
    ensures { OnOk result (Appends (W.contents writer.old) (W.contents writer.new)
        (spec.nothing_text barred)) }
{
    match barred {
        None => write_report(
            writer,
            b"It holds no desk: the next word of the desk over it makes one.",
        ),
        Some(index) => {
            write_report(writer, b"It holds no desk, and none can be made in it.")?;
            write_shown(alloc, writer, &TakenName(index))
        }
    }
}

/// Writes what keeps a table of the desk from being as declared, where that is known.
fn write_bound<W: Write>(
    alloc: Global,
    writer: &mut W,
    binder: Option<Binder>,
) -> Result<(), ReportError>
    ensures { OnOk result (Appends (W.contents writer.old) (W.contents writer.new)
        (spec.bound_text binder)) }
{
    match binder {
        None => Ok(()),
        Some(binder) => write_shown(alloc, writer, &binder),
    }
}

/// Writes that a desk's tables aren't as declared, and what keeps one from it.
fn write_lacking<W: Write>(
    alloc: Global,
    writer: &mut W,
    binder: Option<Binder>,
) -> Result<(), ReportError>
    ensures { OnOk result (Appends (W.contents writer.old) (W.contents writer.new)
        (with_lf (spec.rule_line Rule.Tables) ++ spec.bound_text binder)) }
{
    write_shown(alloc, writer, &BrokenRule(Rule::Tables))?;
    write_bound(alloc, writer, binder)
}

/// Writes a desk's position, and how many rows it has.
fn write_summary<W: Write>(
    alloc: Global,
    writer: &mut W,
    summary: &FileSummary,
) -> Result<(), ReportError>
    ensures { OnOk result (Appends (W.contents writer.old) (W.contents writer.new)
        (spec.desk_text summary.now)) }
{
    write_shown(alloc, writer, summary)?;
    write_shown(alloc, writer, &Counts(*summary))
}

/// Writes what a desk breaks, and an index that can't be made.
fn write_wrong<W: Write>(
    alloc: Global,
    writer: &mut W,
    findings: &Findings,
    barred: Option<DeskIndex>,
) -> Result<(), ReportError>
    ensures { OnOk result (Appends (W.contents writer.old) (W.contents writer.new)
        (spec.findings_text findings.now ++ spec.barred_text barred)) }
{
    write_findings(alloc, writer, findings)?;
    write_barred(alloc, writer, barred)
}

/// Writes what a file holds that opens.
pub(crate) fn write_file_report<W: Write>(
    alloc: Global,
    writer: &mut W,
    file_report: &FileReport,
) -> Result<(), ReportError>
    ensures { OnOk result (Appends (W.contents writer.old) (W.contents writer.new)
        (spec.file_report_text file_report.now)) }
{
    match file_report {
        FileReport::Nothing(barred) => write_nothing(alloc, writer, *barred),
        FileReport::Newer(schema) => write_shown(alloc, writer, &Later(*schema)),
        FileReport::Lacking(binder) => write_lacking(alloc, writer, *binder),
        FileReport::Desk {
            summary,
            barred,
            findings,
        } => {
            write_summary(alloc, writer, summary)?;
            write_wrong(alloc, writer, findings, *barred)
        }
    }
}

/// That a file doesn't open, with these words.
fn closed_text(alloc: Global, words: &str) -> Result<String, AllocError>
    ensures { IfOk result (λ text. string_bytes text ≡ closed_text words.now) }
{
    let mut text = String::from_str(alloc, "The file doesn't open: ")?;
    text.push_str(words)?;
    text.push_str(".")?;
    Ok(text)
}

/// That a file doesn't open, in the toolkit's words where it has some.
fn error_text(alloc: Global, error: Option<Error>) -> Result<String, AllocError>
    ensures { IfOk result (λ text. IsErrorText error (string_bytes text)) }
{
    match error {
        None => String::from_str(alloc, "The file doesn't open."),
        Some(error) => {
            let words = error.to_string(alloc)?;
            closed_text(alloc, words.as_str())
        }
    }
}

/// Writes that a file doesn't open.
fn write_error<W: Write>(
    alloc: Global,
    writer: &mut W,
    open_error: OpenError,
) -> Result<(), ReportError>
    ensures { OnOk result ((text : List ℕ) × IsErrorText (error_of open_error) text
        × Appends (W.contents writer.old) (W.contents writer.new) (with_lf text)) }
{
    match error_text(alloc, open_error.error()) {
        Ok(text) => write_report(writer, text.as_bytes()),
        Err(_) => Err(ReportError::Memory),
    }
}

/// Writes why a file doesn't open: in the toolkit's words where it has some, then in plain ones, and what to do.
pub(crate) fn write_open_error<W: Write>(
    alloc: Global,
    writer: &mut W,
    open_error: OpenError,
) -> Result<(), ReportError>
    ensures { OnOk result (WritesOpening (Some open_error) (W.contents writer.old) (W.contents writer.new)) }
{
    write_error(alloc, writer, open_error)?;
    write_shown(alloc, writer, &Cause(open_error))
}
