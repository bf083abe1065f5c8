//! The order of stored rows by columns of their table, whatever their values are.

ghost use Rattle.std.specs.Prelude.{◌≡◌, ◌∷◌};
ghost use Rattle.sqlite.specs.Order.{column};
ghost use Rattle.sqlite.specs.declared.types.Value.TheVariants.{Null};
ghost use Rattle.sqlite_value.specs.Value.{owned};
ghost use Rattle.sql_queries.specs.Keys as key;
ghost use Rattle.sql_queries.specs.Selects.{first_of};

use sql_tables::TableDef;
use sqlite::Row;
use sqlite::types::ValueRef;
use std::cmp::Ordering;

/// The value in the column with this index, the first column being 1; NULL where there is no such column.
fn value_at(row: &Row, column_index: usize) -> ValueRef<'_>
    ensures { owned result ≡ column (Null ∷ row.now) column_index }
{
    if column_index == 0 {
        return ValueRef::Null;
    }
    match row.get_ref(column_index - 1) {
        Ok(value) => value,
        Err(_) => ValueRef::Null,
    }
}

/// The number of a value, and 0 where it is none.
fn number_of(value: ValueRef<'_>) -> i64
    ensures { result ≡ key.number_of (owned value.entry) }
{
    match value {
        ValueRef::Int(number) => number,
        _ => 0,
    }
}

/// The text of a value, and the empty one where it is none.
fn text_of<'a>(value: ValueRef<'a>) -> &'a [u8]
    ensures { result.now ≡ key.text_of (owned value.entry) }
{
    match value {
        ValueRef::Text(bytes) => bytes,
        _ => &[],
    }
}

/// The order of two values: by their numbers, then by the bytes of their texts.
fn value_order(a: ValueRef<'_>, b: ValueRef<'_>) -> Ordering
    ensures { result ≡ key.value_order (owned a.entry) (owned b.entry) }
{
    number_of(a)
        .cmp(&number_of(b))
        .then(text_of(a).cmp(text_of(b)))
}

/// The order of two rows by the columns with these indexes.
fn key_order(column_indexes: &[usize], a: &Row, b: &Row) -> Ordering
    ensures { result ≡ key.key_order column_indexes.now a.now b.now }
{
    for column_index in column_indexes {
        let order = value_order(value_at(a, *column_index), value_at(b, *column_index));
        if order != Ordering::Equal {
            return order;
        }
    }
    Ordering::Equal
}

/// The column indexes of the first key of a table definition, the first column being 1; none where it has no key.
pub fn first_key<'a>(table_def: &TableDef<'a>) -> &'a [usize]
    ensures { result.now ≡ first_of table_def.now.keys }
{
    match table_def.keys {
        [first, ..] => first,
        [] => &[],
    }
}

/// Whether the row comes before the other by the columns with these indexes.
pub(crate) fn is_before(column_indexes: &[usize], a: &Row, b: &Row) -> bool
    ensures { result ≡ key.is_before column_indexes.now a.now b.now }
{
    key_order(column_indexes, a, b).is_lt()
}
