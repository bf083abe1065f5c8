//! Stored rows of which a value breaks its rule.
ghost use Rattle.std.specs.Prelude.{◌≡◌, IfOk};
ghost use Rattle.plant_check.specs.Values as spec;

use crate::stored::{found_in, key_or_place};
use crate::table_rules::{is_read, rules_of};
use crate::value_rule::obeys;
use plant_requirements::first::{as_a_whole, in_column};
use plant_requirements::{Column, Found, RowFault, RowKey, Table, ValueRule, Wanted, all_tables};
use plant_tables::Loaded;
use plant_tables_columns::reading::value;
use sqlite::Row;
use std::alloc::{AllocError, Global};

/// A stored value that breaks the rule of its column.
#[derive(Clone, Copy, Debug, PartialEq, Eq)]
struct BadValue {
    column: Column,
    found: Found,
    rule: ValueRule,
}

/// The value of the first column that breaks its rule.
fn first_bad_value(rules: &[(Column, ValueRule)], row: &Row) -> Option<BadValue>
    ensures { result ≡ spec.first_bad_value rules.now 0 row.now }
{
    for at in 0..rules.len() {
        let (column, rule) = rules[at];
        let value = value(row, at);
        if !obeys(rule, value) {
            let found = found_in(value);
            return Some(BadValue {
                column,
                found,
                rule,
            });
        }
    }
    None
}

/// The fault of a row of the table that can't be decoded and has this position in the order of the key. It is that of the
/// first column whose value breaks its rule; of the row as a whole, where each value alone obeys its rule.
#[tactic(auto, unfolding(crate::specs::Values::unread_fault))]
fn unread_fault(table: Table, place: u64, row: &Row) -> RowFault
    ensures { result ≡ spec.unread_fault table place row.now }
{
    let place = (table, key_or_place(table, place, row));
    match first_bad_value(rules_of(table), row) {
        None => as_a_whole(place, Wanted::Values),
        Some(bad) => in_column(place, bad.column, bad.found, Wanted::Value(bad.rule)),
    }
}

/// The first row of the table that can't be decoded. The only error is that memory was refused.
fn first_unread(alloc: Global, table: Table, rows: &[Row]) -> Result<Option<RowFault>, AllocError>
    ensures { IfOk result (λ reported. reported ≡ spec.first_unread table 1 rows.now) }
{
    for at in 0..rows.len() {
        if !is_read(alloc, table, &rows[at])? {
            return Ok(Some(unread_fault(table, at as u64 + 1, &rows[at])));
        }
    }
    Ok(None)
}

/// The first row that can't be decoded, of these tables, which were loaded from index 1 on. The only error is that memory was
/// refused.
fn first_unread_of(
    alloc: Global,
    tables: &[Table],
    loaded: &Loaded,
) -> Result<Option<RowFault>, AllocError>
    ensures { IfOk result (λ reported. reported ≡ spec.first_unread_of loaded.now 1 tables.now) }
{
    for at in 0..tables.len() {
        if let Some(fault) = first_unread(alloc, tables[at], loaded.rows(at + 1))? {
            return Ok(Some(fault));
        }
    }
    Ok(None)
}

/// The first stored row that can't be decoded, since a value of it breaks its rule, of all tables but meta. It is named by
/// its key, or by its position in the order of the key where that can't be read, and with the first column whose value
/// breaks its rule, where there is one. The only error is that memory was refused.
pub(crate) fn value_fault_in(alloc: Global, loaded: &Loaded) -> Result<Option<RowFault>, AllocError>
    ensures { IfOk result (λ reported. reported ≡ spec.value_fault_in loaded.now) }
{
    first_unread_of(alloc, &all_tables(), loaded)
}
