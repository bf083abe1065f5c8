//! The report on a file, as one JSON object.
ghost use Rattle.std.specs.Prelude.{◌≡◌, ◌∷◌, ◌++◌, [], ℕ, List, Option, IfOk, OnOk, Some, map};
ghost use Rattle.std.specs.Prelude.{string_bytes};
ghost use Rattle.std.specs.Io.KnownBytes.{Appends};
ghost use Rattle.serde_json.specs.View.{view};
ghost use Rattle.serde_json.specs.Written.{compact_text};
ghost use Rattle.plant_text.specs.{with_lf};
ghost use Rattle.file_reports.specs.Reports.{found_in};
ghost use Rattle.file_reports.specs.Objects as spec;
ghost use Rattle.file_reports.specs.OpenErrors.{HasWords, HasWordsOf, error_of};
ghost use Rattle.file_reports.specs.Outcomes.{WritesObject};

use crate::barred::DeskIndex;
use crate::bound::Binder;
use crate::ending::ReportError;
use crate::file_report::{FileReport, FileSummary};
use crate::open_error::OpenError;
use crate::outcome::CheckOutcome;
use crate::report::write_report;
use plant_check::{Column, Findings, RowFault, RowKey, Tested, rule_text};
use plant_check_rules::Rule;
use serde_json::{Value, json};
use sqlite::Error;
use std::alloc::{AllocError, Global};
use std::io::Write;

/// The values of a key, in the order of its columns; or the position of the row.
fn key_value(alloc: Global, key: RowKey) -> Result<Value, AllocError>
    ensures { IfOk result (λ v. view v ≡ spec.key_data key) }
{
    match key {
        RowKey::Id(id) => json!(in alloc; [(id.as_str())]),
        RowKey::Number(number) => json!(in alloc; [number]),
        RowKey::Ids(a, b) => json!(in alloc; [(a.as_str()), (b.as_str())]),
        RowKey::Numbers(m, n) => json!(in alloc; [m, n]),
        RowKey::IdNumber(id, n) => json!(in alloc; [(id.as_str()), n]),
        RowKey::IdNumbers(id, m, n) => json!(in alloc; [(id.as_str()), m, n]),
        RowKey::NumberIds(n, a, b) => json!(in alloc; [n, (a.as_str()), (b.as_str())]),
        RowKey::IdNumberId(a, n, b) => json!(in alloc; [(a.as_str()), n, (b.as_str())]),
        RowKey::Place(place) => json!(in alloc; {"place": place}),
    }
}

fn column_value(alloc: Global, column: Option<Column>) -> Result<Value, AllocError>
    ensures { IfOk result (λ v. view v ≡ spec.column_data column) }
{
    match column {
        None => Ok(Value::Null),
        Some(column) => json!(in alloc; (column.name())),
    }
}

fn fault_value(alloc: Global, fault: RowFault) -> Result<Value, AllocError>
    ensures { IfOk result (λ v. view v ≡ spec.row_data (Some fault)) }
{
    let key = key_value(alloc, fault.key)?;
    let column = column_value(alloc, fault.column)?;
    let found = fault.found.to_string(alloc)?;
    let wanted = fault.wanted.to_string(alloc)?;
    json!(in alloc; {
        "column": column, "found": (found.as_str()), "key": key, "table": (fault.table.name()), "wanted": (wanted.as_str())
    })
}

fn row_value(alloc: Global, row: &Option<RowFault>) -> Result<Value, AllocError>
    ensures { IfOk result (λ v. view v ≡ spec.row_data row.now) }
{
    match row {
        None => Ok(Value::Null),
        Some(fault) => fault_value(alloc, *fault),
    }
}

fn broken_value(alloc: Global, rule: Rule, row: &Option<RowFault>) -> Result<Value, AllocError>
    ensures { IfOk result (λ v. view v ≡ spec.broken_data rule row.now) }
{
    let row = row_value(alloc, row)?;
    json!(in alloc; {"row": row, "rule": (rule.number()), "says": (rule_text(rule))})
}

/// A list of this one.
#[tactic(auto, using(crate::proofs::JsonListReported::listed))]
fn alone(alloc: Global, value: Value) -> Result<Value, AllocError>
    ensures { IfOk result (λ v. view v ≡ spec.list (view value ∷ [])) }
{
    let mut list = Vec::new(alloc);
    list.push(value)?;
    Ok(Value::Array(list))
}

/// Adds a rule that is broken to the others.
fn add_broken(
    alloc: Global,
    list: &mut Vec<Value>,
    rule: Rule,
    row: &Option<RowFault>,
) -> Result<(), AllocError>
    ensures { OnOk result (map view list.new.items ≡ map view list.old.items ++ spec.broken_data rule row.now ∷ []) }
{
    let value = broken_value(alloc, rule, row)?;
    list.push(value)?;
    Ok(())
}

/// Adds what is found of a rule to the others, where something is.
fn add_found(
    alloc: Global,
    list: &mut Vec<Value>,
    tested: &Tested,
    rule: Rule,
) -> Result<(), AllocError>
    ensures { OnOk result (map view list.new.items ≡ map view list.old.items ++ spec.found_data (found_in tested.now rule)) }
{
    match tested.of_rule(alloc, rule) {
        Ok(None) => Ok(()),
        Ok(Some(finding)) => add_broken(alloc, list, finding.rule, &finding.row),
        Err(error) => Err(error),
    }
}

fn each_value(alloc: Global, tested: &Tested, rules: &[Rule]) -> Result<Vec<Value>, AllocError>
    ensures { IfOk result (λ list. map view list.items ≡ spec.each_data tested.now rules.now) }
{
    let mut list = Vec::new(alloc);
    for rule in rules {
        add_found(alloc, &mut list, tested, *rule)?;
    }
    Ok(list)
}

#[tactic(auto, using(crate::proofs::JsonListReported::listed))]
fn findings_value(alloc: Global, findings: &Findings) -> Result<Value, AllocError>
    ensures { IfOk result (λ v. view v ≡ spec.findings_data findings.now) }
{
    match findings {
        Findings::NoMeta => alone(alloc, broken_value(alloc, Rule::Tables, &None)?),
        Findings::Values(row) => alone(alloc, broken_value(alloc, Rule::Values, row)?),
        Findings::Rows(tested) => Ok(Value::Array(each_value(
            alloc,
            tested,
            tested.rules.as_slice(),
        )?)),
    }
}

fn desk_value(
    alloc: Global,
    summary: &FileSummary,
    findings: &Findings,
) -> Result<Value, AllocError>
    ensures { IfOk result (λ v. view v ≡ spec.desk_data summary.now findings.now) }
{
    let broken = findings_value(alloc, findings)?;
    json!(in alloc; {
        "at": (summary.at), "batches": (summary.batches), "broken": broken, "lots": (summary.lots),
        "movements": (summary.movements), "orders": (summary.orders), "schema": (summary.schema), "seq": (summary.seq)
    })
}

/// The report on a desk whose tables aren't as declared.
fn lacking_value(alloc: Global, binder: Option<Binder>) -> Result<Value, AllocError>
    ensures { IfOk result (λ v. view v ≡ spec.file_report_data (Some (FileReport.Lacking binder))) }
{
    let bound = bound_value(alloc, binder)?;
    let broken = findings_value(alloc, &Findings::NoMeta)?;
    json!(in alloc; {"bound": bound, "broken": broken})
}

/// The name of what keeps a table from being as declared, where that is known.
fn bound_value(alloc: Global, binder: Option<Binder>) -> Result<Value, AllocError>
    ensures { IfOk result (λ v. view v ≡ spec.bound_data binder) }
{
    match binder {
        None => Ok(Value::Null),
        Some(binder) => json!(in alloc; (binder.name.as_str())),
    }
}

fn file_report_value(alloc: Global, file_report: &Option<FileReport>) -> Result<Value, AllocError>
    ensures { IfOk result (λ v. view v ≡ spec.file_report_data file_report.now) }
{
    match file_report {
        None | Some(FileReport::Nothing(_)) => Ok(Value::Null),
        Some(FileReport::Newer(schema)) => json!(in alloc; {"newer": (*schema)}),
        Some(FileReport::Lacking(binder)) => lacking_value(alloc, *binder),
        Some(
            FileReport::Desk {
                summary,
                findings,
                ..
            },
        ) => desk_value(alloc, summary, findings),
    }
}

fn index_value(alloc: Global, index: Option<DeskIndex>) -> Result<Value, AllocError>
    ensures { IfOk result (λ v. view v ≡ spec.index_data index) }
{
    match index {
        None => Ok(Value::Null),
        Some(index) => json!(in alloc; (index.name())),
    }
}

/// The name of the index that can't be made, where there is one.
fn taken_value(alloc: Global, file_report: &Option<FileReport>) -> Result<Value, AllocError>
    ensures { IfOk result (λ v. view v ≡ spec.taken_data file_report.now) }
{
    match file_report {
        Some(FileReport::Nothing(barred)) => index_value(alloc, *barred),
        Some(FileReport::Desk { barred, .. }) => index_value(alloc, *barred),
        None | Some(FileReport::Newer(_)) | Some(FileReport::Lacking(_)) => Ok(Value::Null),
    }
}

fn text_value(alloc: Global, text: &str) -> Result<Value, AllocError>
    ensures { IfOk result (λ v. view v ≡ spec.sentence_data (Some text.now)) }
{
    json!(in alloc; text)
}

/// The toolkit's own sentence, where it has one.
fn error_value(alloc: Global, error: Option<Error>) -> Result<Value, AllocError>
    ensures { IfOk result (λ v. (words : Option (List ℕ)) × HasWords error words × (view v ≡ spec.sentence_data words)) }
{
    match error {
        None => Ok(Value::Null),
        Some(error) => {
            let text = error.to_string(alloc)?;
            text_value(alloc, text.as_str())
        }
    }
}

fn cause_value(alloc: Global, open_error: OpenError) -> Result<Value, AllocError>
    ensures { IfOk result (λ v. (words : Option (List ℕ)) × HasWords (error_of open_error) words
        × (view v ≡ spec.open_error_data (Some open_error) words)) }
{
    let error = error_value(alloc, open_error.error())?;
    json!(in alloc; {
        "advice": (open_error.advice()), "cause": (open_error.name()), "error": error, "says": (open_error.cause())
    })
}

fn open_error_value(alloc: Global, open_error: &Option<OpenError>) -> Result<Value, AllocError>
    ensures { IfOk result (λ v. (words : Option (List ℕ)) × HasWordsOf open_error.now words
        × (view v ≡ spec.open_error_data open_error.now words)) }
{
    match open_error {
        None => Ok(Value::Null),
        Some(open_error) => cause_value(alloc, *open_error),
    }
}

fn outcome_value(alloc: Global, outcome: &CheckOutcome) -> Result<Value, AllocError>
    ensures { IfOk result (λ v. (words : Option (List ℕ)) × HasWordsOf outcome.now.open_error words
        × (view v ≡ spec.outcome_data outcome.now words)) }
{
    let desk = file_report_value(alloc, &outcome.file_report)?;
    let open_error = open_error_value(alloc, &outcome.open_error)?;
    let taken = taken_value(alloc, &outcome.file_report)?;
    let opens = outcome.open_error.is_none();
    json!(in alloc; {"desk": desk, "obstacle": open_error, "opens": opens, "taken": taken})
}

fn object_text(alloc: Global, outcome: &CheckOutcome) -> Result<String, AllocError>
    ensures { IfOk result (λ text. (words : Option (List ℕ)) × HasWordsOf outcome.now.open_error words
        × (string_bytes text ≡ compact_text (spec.outcome_data outcome.now words))) }
{
    let value = outcome_value(alloc, outcome)?;
    value.to_string(alloc)
}

/// Writes an outcome as one JSON object, in a line.
pub(crate) fn write_object<W: Write>(
    alloc: Global,
    writer: &mut W,
    outcome: &CheckOutcome,
) -> Result<(), ReportError>
    ensures { OnOk result (WritesObject outcome.now (W.contents writer.old) (W.contents writer.new)) }
{
    match object_text(alloc, outcome) {
        Ok(text) => write_report(writer, text.as_bytes()),
        Err(_) => Err(ReportError::Memory),
    }
}
