//! Whether a schema declares a table as a table definition says.
ghost use Rattle.std.specs.Prelude.{◌≡◌, ◌↔◌, ◌==◌, ◌<◌, ◌^◌, true, false, not, map, List, IsTrue};
ghost use Rattle.std.specs.Prelude.{codes, [], None, length};
ghost use Rattle.std.specs.List.{list_all, list_any};
ghost use Rattle.sqlite_schema.specs.Names.{same_name};
ghost use Rattle.sqlite_schema.specs.Rules.{guards};
ghost use Rattle.sqlite.specs.Change.{is_used};
ghost use Rattle.sqlite_rules.specs.Lists.{Has};
ghost use Rattle.sqlite_value.specs.Keys.{plain};
ghost use Rattle.sql_tables.specs.TableDefs.{column_of, table_of, plains};
ghost use Rattle.sql_tables.specs.StoredRows.{IsFree, IsDeclared, IsUnnamed, HasTable};

use crate::table_def::{ColumnDef, TableDef};
use sqlite_items::Items;
use sqlite_schema::names::same_name;
use sqlite_schema::schema::{Column, Index, Kind, Reference, Schema, Table};
use sqlite_value::keys::{Collation, Order};
use sqlite_value::value::Value;

/// The type of a column, and whether it may be NULL.
fn kind_of(table_def: &ColumnDef<'_>) -> (Kind, bool)
    ensures { result ≡ ((column_of table_def.now).kind, (column_of table_def.now).not_null) }
{
    match table_def {
        ColumnDef::Integer(_) => (Kind::Integer, true),
        ColumnDef::Text(_) => (Kind::Text, true),
        ColumnDef::IntegerOrNull(_) => (Kind::Integer, false),
        ColumnDef::TextOrNull(_) => (Kind::Text, false),
    }
}

fn name_of<'a>(table_def: &ColumnDef<'a>) -> &'a [u8]
    ensures { result.now ≡ (column_of table_def.now).name }
{
    match table_def {
        ColumnDef::Integer(name)
        | ColumnDef::Text(name)
        | ColumnDef::IntegerOrNull(name)
        | ColumnDef::TextOrNull(name) => name,
    }
}

fn is_column(column: &Column, table_def: &ColumnDef<'_>) -> bool
    ensures { (result ≡ true) ↔ (column.now ≡ column_of table_def.now) }
{
    let (kind, not_null) = kind_of(table_def);
    column.name.as_slice() == name_of(table_def)
        && column.kind == kind
        && column.is_strict
        && column.not_null == not_null
        && matches!(column.default, Value::Null)
        && column.collation == Collation::Binary
}

fn are_columns(columns: &[Column], table_defs: &[ColumnDef<'_>]) -> bool
    ensures { (result ≡ true) ↔ (columns.now ≡ map column_of table_defs.now) }
{
    if columns.len() != table_defs.len() {
        return false;
    }
    for at in 0..columns.len() {
        if !is_column(&columns[at], &table_defs[at]) {
            return false;
        }
    }
    true
}

fn is_key(column_indexes: &Items<usize>, key: &[usize]) -> bool
    ensures { (result ≡ true) ↔ (column_indexes.now ≡ key.now) }
{
    column_indexes.as_slice() == key
}

fn are_keys(uniques: &[Items<usize>], keys: &[&[usize]]) -> bool
    ensures { (result ≡ true) ↔ (uniques.now ≡ map (λ key. key.now) keys.now) }
{
    if uniques.len() != keys.len() {
        return false;
    }
    for at in 0..uniques.len() {
        if !is_key(&uniques[at], keys[at]) {
            return false;
        }
    }
    true
}

fn are_plain(orders: &[Order], keys: &[&[usize]]) -> bool
    ensures { (result ≡ true) ↔ (orders.now ≡ plains (map (λ key. key.now) keys.now)) }
{
    if orders.len() != keys.len() {
        return false;
    }
    for at in 0..orders.len() {
        if orders[at].digits != 0 {
            return false;
        }
    }
    true
}

/// Whether CREATE gave the table nothing but columns and keys.
fn is_bare(table: &Table) -> bool
    ensures { (result ≡ true) ↔ ((table.now.key ≡ None) × (table.now.primary ≡ [])
        × (table.now.checks ≡ []) × (table.now.references ≡ []) × (table.now.computed ≡ [])
        × (table.now.stamps ≡ record { places = []; terms = []; formats = [] })
        × (table.now.is_counted ≡ false)) }
{
    table.key.is_none()
        && table.primary.as_slice().is_empty()
        && table.checks.roots.as_slice().is_empty()
        && table.references.as_slice().is_empty()
        && table.computed.as_slice().is_empty()
        && table.stamps.places.as_slice().is_empty()
        && table.stamps.terms.roots.as_slice().is_empty()
        && table.stamps.formats.as_slice().is_empty()
        && !table.is_counted
}

/// Whether the table definition declares the table.
fn is_table(table: &Table, table_def: &TableDef<'_>) -> bool
    ensures { (result ≡ true) ↔ (table.now ≡ table_of table_def.now table.now.tree) }
{
    table.name.as_slice() == table_def.name
        && are_columns(table.columns.as_slice(), table_def.columns)
        && are_keys(table.uniques.as_slice(), table_def.keys)
        && are_plain(table.orders.as_slice(), table_def.keys)
        && is_bare(table)
}

fn is_reference_to(reference: &Reference, name: &[u8]) -> bool
    ensures { result ≡ same_name name.now reference.now.parent }
{
    same_name(name, reference.parent.as_slice())
}

fn names(table: &Table, name: &[u8]) -> bool
    ensures { result ≡ list_any (λ ref. same_name name.now ref.parent) table.now.references }
{
    table
        .references
        .as_slice()
        .iter()
        .any(|reference| is_reference_to(reference, name))
}

/// Whether a foreign key names the table of this name.
fn is_parent(schema: &Schema, name: &[u8]) -> bool
    ensures { result ≡ list_any
        (λ t. list_any (λ ref. same_name name.now ref.parent) t.references) schema.now.tables }
{
    schema
        .tables
        .as_slice()
        .iter()
        .any(|table| names(table, name))
}

/// Whether a table, an index or a view bears the name.
pub fn is_taken(schema: &Schema, name: &[u8]) -> bool
    ensures { result ≡ is_used schema.now name.now }
{
    schema.table_named(name).is_some()
        || schema.index_named(name).is_some()
        || schema.view_named(name).is_some()
}

/// Whether the name of the definition's table is free: no table, index or view bears it, and no foreign key names it. It
/// reads the schema alone, and takes no memory.
pub fn is_free(schema: &Schema, table_def: &TableDef<'_>) -> bool
    ensures { (result ≡ true) ↔ IsFree schema.now table_def.now }
{
    !is_taken(schema, table_def.name) && !is_parent(schema, table_def.name)
}

/// Whether no other table has the tree.
fn is_own(schema: &Schema, tree: u32, table_def: &TableDef<'_>) -> bool
    ensures { (result ≡ true) ↔ ((t : _) → Has schema.now.tables t → t.tree ≡ tree
        → t ≡ table_of table_def.now tree) }
{
    for table in schema.tables.as_slice() {
        if table.tree == tree && !is_table(table, table_def) {
            return false;
        }
    }
    true
}

/// Whether the column indexes are those of one of the keys.
fn is_some_key(column_indexes: &Items<usize>, keys: &[&[usize]]) -> bool
    ensures { (result ≡ true) ↔ Has (map (λ key. key.now) keys.now) column_indexes.now }
{
    for key in keys {
        if is_key(column_indexes, key) {
            return true;
        }
    }
    false
}

/// Whether the index is on one of the keys.
fn is_of_a_key(index: &Index, keys: &[&[usize]]) -> bool
    ensures { (result ≡ true) ↔ ((index.now.order ≡ plain)
        × Has (map (λ key. key.now) keys.now) index.now.columns) }
{
    index.order.digits == 0 && is_some_key(&index.columns, keys)
}

/// Whether each UNIQUE of the table of this tree is one of the keys.
fn has_no_other_key(schema: &Schema, tree: u32, table_def: &TableDef<'_>) -> bool
    ensures { (result ≡ true) ↔ ((i : _) → Has schema.now.indexes i
        → guards i (table_of table_def.now tree) ≡ true → (i.order ≡ plain) × Has table_def.now.keys i.columns) }
{
    for index in schema.indexes.as_slice() {
        if index.is_unique && index.table == tree && !is_of_a_key(index, table_def.keys) {
            return false;
        }
    }
    true
}

/// Whether the table is declared as its table definition says: no other table has its tree, no UNIQUE was added to it,
/// and no foreign key names it. It reads the schema alone, and takes no memory.
pub fn is_declared(schema: &Schema, table_def: &TableDef<'_>) -> bool
    ensures { (result ≡ true) ↔ HasTable schema.now table_def.now }
{
    let Some(at) = schema.table_named(table_def.name) else {
        return false;
    };
    let Some(table) = schema.tables.get(at) else {
        return false;
    };
    // That no other table has its tree also decides how the table itself is declared.
    if table.tree >= 1 << 31 {
        return false;
    }
    if !is_own(schema, table.tree, table_def) || !has_no_other_key(schema, table.tree, table_def) {
        return false;
    }
    !is_parent(schema, table_def.name)
}
