//! What a store holds of the desk.

ghost use Rattle.std.specs.Prelude.{◌≡◌, ◌≢◌, ◌↔◌, ◌∷◌, [], false, true, All, None, ℤ, IfOk, IfErr};
ghost use Rattle.std.specs.Prelude.{IfSome, is_some};
ghost use Rattle.std.specs.List.{list_any};
ghost use Rattle.sqlite.specs.Does.{lacks_sequence};
ghost use Rattle.sqlite.specs.Held.{state};
ghost use Rattle.sqlite.specs.Order.{Row as Values, column};
ghost use Rattle.sqlite.specs.Rows.{sequence};
ghost use Rattle.sqlite.specs.State.{HasCleanDisk, IsLive, Survives};
ghost use Rattle.sqlite.specs.declared.types.Value.TheVariants.{Int};
ghost use Rattle.sql_tables.specs.{AreFree, IsFree};
ghost use Rattle.sql_queries.specs.{AnswersUnchanged, BeginsNone, FindsUnchanged, KeepsVisible};
ghost use Rattle.plant_tables.specs.Loading.{Loads};
ghost use Rattle.plant_tables.specs.DeskTableDefs.{desk_table_defs, meta_table};
ghost use Rattle.plant_tables.specs.Version.{row_of, IsValidMeta, IsVersion};
ghost use Rattle.plant_tables.specs.LoadingContracts.{FindsVersion, FindsVersionUnchanged};
ghost use Rattle.plant_tables.specs.LoadingContracts.{WantsMeta};

use crate::select_texts::SELECT_META;
use crate::table_defs::{META, desk_table_defs};
use plant_base::{GREATEST_MOMENT, GREATEST_SEQ};
use sql_queries::{all_free, are_all_declared, read_table};
use sql_tables::StoreFault;
use sqlite::types::ValueRef;
use sqlite::{Alter, Connection, Row};
use sqlite_schema::schema::{Schema, Table};
use std::alloc::Global;

/// What a store holds of the desk's tables.
#[derive(Clone, Copy, Debug, PartialEq, Eq)]
pub enum FoundTables {
    /// None of them: their names are free, and they can be made.
    Nothing,
    /// Some, but table meta isn't declared as its definition says, or hasn't one row, or has a row with a number that it can't
    /// have.
    NoMeta,
    /// Some, of this version, which is at least 1.
    Version(i64),
}

/// The numbers of a row of table meta.
#[derive(Clone, Copy)]
struct MetaNumbers {
    k: i64,
    schema: i64,
    seq: i64,
    at: i64,
}

/// The number in a column, where there is one.
fn number(row: &Row, at: usize) -> Option<i64>
    ensures some { IfSome result (λ n. column row.now at ≡ Int n) }
    ensures none { result ≡ None → (n : ℤ) → column row.now at ≢ Int n }
{
    match row.get_ref(at) {
        Ok(ValueRef::Int(number)) => Some(number),
        _ => None,
    }
}

/// The numbers of a row, where it has four columns and a number in each.
fn numbers_of(row: &Row) -> Option<MetaNumbers>
    ensures some { IfSome result (λ meta. row.now ≡ row_of meta) }
    ensures none { result ≡ None → (meta : MetaNumbers) → row.now ≢ row_of meta }
{
    if row.column_count() != 4 {
        return None;
    }
    Some(MetaNumbers {
        k: number(row, 0)?,
        schema: number(row, 1)?,
        seq: number(row, 2)?,
        at: number(row, 3)?,
    })
}

/// Whether each number is one that the row of table meta can have.
fn is_valid(meta: &MetaNumbers) -> bool
    ensures { (result ≡ true) ↔ IsValidMeta (row_of meta.now) }
{
    meta.k == 1
        && meta.schema >= 1
        && 0 <= meta.seq
        && meta.seq <= GREATEST_SEQ as i64
        && 0 <= meta.at
        && meta.at <= GREATEST_MOMENT as i64
}

/// The version in a row of table meta, where the row is valid.
fn version_of(row: &Row) -> Option<i64>
    ensures some { IfSome result (λ n. (valid : IsValidMeta row.now) × (valid.schema ≡ n)) }
    ensures none { result ≡ None → ¬ IsValidMeta row.now }
{
    let meta = numbers_of(row)?;
    if is_valid(&meta) {
        Some(meta.schema)
    } else {
        None
    }
}

/// The version in the one row, where the row is valid.
fn version_in(list: &[Row]) -> Option<i64>
    ensures some { IfSome result (λ n. (row : Values) × (list.now ≡ row ∷ [])
        × (valid : IsValidMeta row) × (valid.schema ≡ n)) }
    ensures none { result ≡ None → (row : Values) → list.now ≡ row ∷ [] → ¬ IsValidMeta row }
{
    match list {
        [one] => version_of(one),
        _ => None,
    }
}

/// The version in table meta. `None` where it isn't declared as its definition says, hasn't one row, or has a row
/// that isn't valid. The faults are those of [`found`].
fn version<S: Alter>(alloc: Global, conn: &mut Connection<S>) -> Result<Option<i64>, StoreFault>
    ensures some { HasCleanDisk (state S.Store conn.new)
        → IfOk result (λ found. IfSome found (IsVersion (state S.Store conn.old).now)) }
    ensures none { HasCleanDisk (state S.Store conn.new)
        → IfOk result (λ found. found ≡ None → (n : ℤ) → ¬ IsVersion (state S.Store conn.old).now n) }
    ensures same { FindsUnchanged (state S.Store conn.old) (state S.Store conn.new) result }
    ensures kept { KeepsVisible (state S.Store conn.old) (state S.Store conn.new) }
    ensures mode { BeginsNone (state S.Store conn.old) (state S.Store conn.new) }
    ensures crash { Survives (state S.Store conn.old) (state S.Store conn.new) (λ _. ⊥) }
    ensures memory { WantsMeta (state S.Store conn.old) (state S.Store conn.new) result }
{
    if !are_all_declared(conn.schema(), &[META]) {
        return Ok(None);
    }
    let list = read_table(alloc, conn, &META, SELECT_META)?;
    Ok(version_in(list.as_slice()))
}

/// The rows of table meta, as they are stored. Store where it isn't declared as its definition says, where a transaction is
/// open, and where the store fails; Memory where there is none. Nothing is changed.
pub fn read_meta<S: Alter>(alloc: Global, conn: &mut Connection<S>) -> Result<Vec<Row>, StoreFault>
    ensures rows { HasCleanDisk (state S.Store conn.new)
        → IfOk result (λ list. Loads (state S.Store conn.old).now meta_table list.items) }
    ensures same { AnswersUnchanged (state S.Store conn.old) (state S.Store conn.new) result }
    ensures kept { KeepsVisible (state S.Store conn.old) (state S.Store conn.new) }
    ensures mode { BeginsNone (state S.Store conn.old) (state S.Store conn.new) }
    ensures crash { Survives (state S.Store conn.old) (state S.Store conn.new) (λ _. ⊥) }
    ensures memory { WantsMeta (state S.Store conn.old) (state S.Store conn.new) result }
{
    read_table(alloc, conn, &META, SELECT_META)
}

/// Whether a table counts its rowids, as AUTOINCREMENT does.
fn any_counts(tables: &[Table]) -> bool
    ensures { result ≡ list_any (λ t. t.is_counted) tables.now }
{
    tables.iter().any(|table| table.is_counted)
}

/// Whether SQLite's own table of counts is there.
fn has_counts(schema: &Schema) -> bool
    ensures { result ≡ is_some (sequence schema.now) }
{
    match schema.table_named(b"sqlite_sequence") {
        Some(at) => schema.tables.get(at).is_some(),
        None => false,
    }
}

/// Whether the next CREATE TABLE would make SQLite's table of counts as well.
pub fn lacks_counts(schema: &Schema) -> bool
    ensures { result ≡ lacks_sequence schema.now }
{
    any_counts(schema.tables.as_slice()) && !has_counts(schema)
}

/// What the store holds of the desk's tables. Store where a transaction is open while table meta is to be read, where
/// the names of the tables are free but a table counts its rowids and SQLite's own table of counts isn't there, and
/// where the store fails; Memory where there is none. Nothing is changed.
pub fn found<S: Alter>(alloc: Global, conn: &mut Connection<S>) -> Result<FoundTables, StoreFault>
    ensures nothing { IfOk result (λ found. (found ≡ FoundTables.Nothing)
        ↔ AreFree desk_table_defs (state S.Store conn.old).now.schema) }
    // Where they can be made, there is no fault.
    ensures free { AreFree desk_table_defs (state S.Store conn.old).now.schema → IfErr result (λ _. ⊥) }
    ensures taken { IfOk result (λ found. found ≢ FoundTables.Nothing
        → ¬ All (IsFree (state S.Store conn.old).now.schema) desk_table_defs) }
    ensures version { FindsVersion (state S.Store conn.old) (state S.Store conn.new) result }
    ensures live { IsLive (state S.Store conn.old) }
    ensures untouched { IfOk result (λ found. found ≡ FoundTables.Nothing → conn.new ≡ conn.old) }
    ensures same { FindsVersionUnchanged (state S.Store conn.old) (state S.Store conn.new) result }
    ensures kept { KeepsVisible (state S.Store conn.old) (state S.Store conn.new) }
    ensures mode { BeginsNone (state S.Store conn.old) (state S.Store conn.new) }
    ensures crash { Survives (state S.Store conn.old) (state S.Store conn.new) (λ _. ⊥) }
    ensures memory { WantsMeta (state S.Store conn.old) (state S.Store conn.new) result }
{
    if all_free(conn.schema(), &desk_table_defs()) {
        if lacks_counts(conn.schema()) {
            return Err(StoreFault::Store);
        }
        return Ok(FoundTables::Nothing);
    }
    match version(alloc, conn)? {
        Some(version) => Ok(FoundTables::Version(version)),
        None => Ok(FoundTables::NoMeta),
    }
}
