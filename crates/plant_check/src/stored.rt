//! Stored rows: their values, and their keys where these can be read.
ghost use Rattle.std.specs.Prelude.{◌≡◌};
ghost use Rattle.sqlite_value.specs.Value.{owned};
ghost use Rattle.plant_check.specs.StoredKeys as spec;
ghost use Rattle.plant_check.specs.Values.{key_or_place};

use crate::table_rules::key_in;
use plant_base::Text;
use plant_requirements::{Found, RowKey, Table};
use plant_tables_columns::reading;
use sqlite::Row;
use sqlite::types::ValueRef;

/// What a column has.
pub(crate) fn found_in(value: ValueRef<'_>) -> Found
    ensures { result ≡ spec.found_in (owned value.entry) }
{
    match value {
        ValueRef::Null => Found::Null,
        ValueRef::Int(number) => Found::Integer(number),
        ValueRef::Real(_) => Found::Real,
        ValueRef::Text(bytes) => match Text::read(bytes) {
            Some(text) => Found::Text(text),
            None if bytes.len() <= 60 => Found::OtherText,
            None => Found::LongText,
        },
        ValueRef::Blob(_) => Found::Blob,
    }
}

/// A whole number that isn't below 0.
pub(crate) fn number(row: &Row, at: usize) -> Option<u64>
    ensures { result ≡ spec.number_at row.now at }
{
    reading::number(row, at, 0, i64::MAX as u64)
}

/// The key of a stored row of the table, or where it can't be read, its position in the order of the key, which is given.
pub(crate) fn key_or_place(table: Table, place: u64, row: &Row) -> RowKey
    ensures { result ≡ key_or_place table place row.now }
{
    key_in(table, row).unwrap_or(RowKey::Place(place))
}
