//! All rows of a table that have an amount.

ghost use Rattle.std.specs.Prelude.{◌≡◌, ◌+◌, [], ◌∷◌, false, ℕ, List, Some, IfOk, IfErr, Err};
ghost use Rattle.sqlite.specs.State.{HasCleanDisk, Survives};
ghost use Rattle.sqlite.specs.Held.{state};
ghost use Rattle.sqlite.specs.Values.{bound};
ghost use Rattle.sql_queries.specs.{AnswersUnchanged, BeginsNone, KeepsVisible};
ghost use Rattle.sql_queries.specs.{AreBounds, SelectsPage, first_of};
ghost use Rattle.plant_tables_columns.specs.{all_from, number};
ghost use Rattle.plant_keyed.specs.LookupOutcomes.{PreservesFrame};
ghost use Rattle.plant_keyed.specs.Paging.{AreAbove, half, row_limit};

use crate::faults::if_memory;
use crate::keyed::Keyed;
use plant_tables_columns::storing::large;
use plant_tables_columns::{Decoded, decode_all};
use sql_queries::{RowPage, find_page, first_key};
use sql_tables::{StoreFault, TableDef};
use sqlite::types::ValueRef;
use sqlite::{Alter, Connection};
use std::alloc::Global;

/// No more rows are read at once.
const ROW_LIMIT: u32 = 1_000_000_000;

/// Above 0, and below each amount. The store begins a range of an index at its bound: at 0 it would pass over all rows that have nothing.
const HALF: f64 = 0.5;

/// The rows of the desk that were read, where they are all. The fault is that of the reading; Memory where there are more, and where there is none for
/// the rows; Store where a value of a row breaks its rule.
fn whole_by<R: Decoded>(
    alloc: Global,
    read: Result<RowPage, StoreFault>,
) -> Result<Vec<R>, StoreFault>
    ensures handed { IfErr read (λ fault. result ≡ Err fault) }
    ensures rows { IfOk read (λ stored. IfOk result
        (λ rows. (all_from R.row_from stored.rows.items ≡ Some rows.items)
        × (stored.has_more ≡ false))) }
{
    let stored = read?;
    if stored.has_more {
        return Err(StoreFault::Memory);
    }
    match if_memory(decode_all(alloc, stored.rows.as_slice()))? {
        Some(rows) => Ok(rows),
        None => Err(StoreFault::Store),
    }
}

/// The rows of a table that have a value above the first one in a column, in the order of its first key. The faults are those of the
/// reading; Memory also where there are more than a limit. Nothing is changed.
fn rows_above<S: Alter, R: Decoded>(
    alloc: Global,
    conn: &mut Connection<S>,
    table_def: &TableDef<'_>,
    by: &[usize],
    sql: &str,
    values: &[ValueRef<'_>],
) -> Result<Vec<R>, StoreFault>
    requires { (next : ℕ) × SelectsPage table_def.now by.now [] next sql.now }
    ensures rows { (next : ℕ) → SelectsPage table_def.now by.now [] next sql.now
        → AreBounds [] row_limit (bound values.now) → HasCleanDisk (state S.Store conn.new)
        → IfOk result (λ rows. AreAbove (state S.Store conn.old).now table_def.now by.now R.row_from next
        (bound values.now) rows.items) }
    ensures same { AnswersUnchanged (state S.Store conn.old) (state S.Store conn.new) result }
    ensures kept { KeepsVisible (state S.Store conn.old) (state S.Store conn.new) }
    ensures mode { BeginsNone (state S.Store conn.old) (state S.Store conn.new) }
    ensures crash { Survives (state S.Store conn.old) (state S.Store conn.new) (λ _. ⊥) }
{
    let read = find_page(alloc, conn, table_def, by, sql, values, ROW_LIMIT as usize);
    whole_by(alloc, read)
}

impl<'a, S: Alter> Keyed<'a, S> {
    /// The same over the lent connection: whether the lookup failed is kept.
    fn found_above<R: Decoded>(
        &mut self,
        table_def: &TableDef<'_>,
        by: &[usize],
        sql: &str,
        values: &[ValueRef<'_>],
    ) -> Result<Vec<R>, StoreFault>
        requires { (next : ℕ) × SelectsPage table_def.now by.now [] next sql.now }
        ensures same_reference { self.new.conn.ghost_name ≡ self.old.conn.ghost_name }
        ensures rows { (next : ℕ) → SelectsPage table_def.now by.now [] next sql.now
            → AreBounds [] row_limit (bound values.now)
            → HasCleanDisk (state S.Store self.new.conn.now)
            → IfOk result (λ rows. AreAbove (state S.Store self.old.conn.now).now table_def.now by.now
            R.row_from next (bound values.now) rows.items) }
        ensures frame { PreservesFrame (state S.Store self.old.conn.now) (state S.Store self.new.conn.now)
            self.old.has_failed self.new.has_failed }
        ensures cached { self.new.cache.now ≡ self.old.cache.now }
    {
        match rows_above(self.alloc, self.conn, table_def, by, sql, values) {
            Ok(rows) => Ok(rows),
            Err(fault) => {
                self.has_failed = true;
                Err(fault)
            }
        }
    }

    /// The rows of a table that have an amount in a column, and not 0, in the order of its first key. Memory also where there are
    /// more than 10^9.
    pub(crate) fn all_with_amount<R: Decoded>(
        &mut self,
        table_def: &TableDef<'_>,
        sql: &str,
    ) -> Result<Vec<R>, StoreFault>
        requires { (next : ℕ) × SelectsPage table_def.now (first_of table_def.now.keys) [] next sql.now }
        ensures same_reference { self.new.conn.ghost_name ≡ self.old.conn.ghost_name }
        ensures rows { (next : ℕ) → SelectsPage table_def.now (first_of table_def.now.keys) [] next sql.now
            → HasCleanDisk (state S.Store self.new.conn.now)
            → IfOk result (λ rows. AreAbove (state S.Store self.old.conn.now).now table_def.now
            (first_of table_def.now.keys) R.row_from next
            (half ∷ number (row_limit + 1) ∷ []) rows.items) }
        ensures frame { PreservesFrame (state S.Store self.old.conn.now) (state S.Store self.new.conn.now)
            self.old.has_failed self.new.has_failed }
        ensures cached { self.new.cache.now ≡ self.old.cache.now }
    {
        let bounds = [ValueRef::Real(HALF), large(u64::from(ROW_LIMIT) + 1)?];
        self.found_above(table_def, first_key(table_def), sql, &bounds)
    }
}
