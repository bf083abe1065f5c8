//! The receipt of a reference, and pages of receipts by their numbers.

ghost use Rattle.std.specs.Prelude.{◌≡◌, ◌+◌, [], ◌∷◌, ℕ, List, Some, None, Err, IfOk, IfErr};
ghost use Rattle.std.specs.Prelude.{slice_get};
ghost use Rattle.sqlite.specs.State.{HasCleanDisk, Survives};
ghost use Rattle.sqlite.specs.Held.{state};
ghost use Rattle.sqlite.specs.Values.{bound};
ghost use Rattle.sql_queries.specs.{AnswersUnchanged, BeginsNone, KeepsVisible, AreGiven};
ghost use Rattle.sql_queries.specs.{SelectsPage, AreBounds};
ghost use Rattle.sql_queries.specs.Selects.{Selects};
ghost use Rattle.plant_base.specs.{receipt_at};
ghost use Rattle.plant_tables_columns.specs.{all_from, number, receipt_from};
ghost use Rattle.plant_questions.specs.{page_size, number_after};
ghost use Rattle.plant_keyed.specs.Decoding.{AreFound};
ghost use Rattle.plant_keyed.specs.LookupOutcomes.{PreservesFrame, IsReported};
ghost use Rattle.plant_keyed.specs.Paging.{IsPaged};
ghost use Rattle.plant_keyed.specs.StateShown.{abstraction};

use crate::faults::if_memory;
use crate::keyed::Keyed;
use crate::lookup_texts;
use crate::pages::decoded_page;
use plant_base::{Id, Receipt};
use plant_questions::{PAGE_SIZE, Page, number_after};
use plant_tables::table_defs::RECEIPT;
use plant_tables_columns::decode_receipts;
use plant_tables_columns::storing::{id, large, small};
use sql_queries::{find_page, find_rows};
use sql_tables::{StoreFault, TableDef};
use sqlite::types::ValueRef;
use sqlite::{Alter, Connection, Row};
use std::alloc::Global;

/// The receipts that were read. The faults are those of the reading; Store where a value of a row breaks its rule, and
/// Memory where there is none for the receipts and their contents.
fn receipts_by(
    alloc: Global,
    read: Result<Vec<Row>, StoreFault>,
) -> Result<Vec<Receipt>, StoreFault>
    ensures handed { IfErr read (λ fault. result ≡ Err fault) }
    ensures rows { IfOk read (λ stored. IfOk result
        (λ rows. all_from receipt_from stored.items ≡ Some rows.items)) }
    ensures broken { IfOk read (λ stored. IfErr result
        (λ fault. fault ≡ StoreFault.Store → all_from receipt_from stored.items ≡ None)) }
{
    let stored = read?;
    match if_memory(decode_receipts(alloc, stored.as_slice()))? {
        Some(rows) => Ok(rows),
        None => Err(StoreFault::Store),
    }
}

/// The first of the receipts, where there is one.
fn first_of(receipts: Vec<Receipt>) -> Option<Receipt>
    ensures { result ≡ slice_get receipts.items 0 }
{
    receipts.into_iter().next()
}

/// The receipts of a table that have the given values, by the first key of the table, as the rows of any other are found.
fn found_receipts<S: Alter>(
    alloc: Global,
    conn: &mut Connection<S>,
    table_def: &TableDef<'_>,
    sql: &str,
    values: &[ValueRef<'_>],
) -> Result<Vec<Receipt>, StoreFault>
    requires { (places : List ℕ) × Selects table_def.now places sql.now }
    ensures rows { (places : List ℕ) → Selects table_def.now places sql.now
        → AreGiven places (bound values.now) → HasCleanDisk (state S.Store conn.new)
        → IfOk result (λ rows. AreFound (state S.Store conn.old).now table_def.now receipt_from places
        (bound values.now) rows.items) }
    ensures same { AnswersUnchanged (state S.Store conn.old) (state S.Store conn.new) result }
    ensures kept { KeepsVisible (state S.Store conn.old) (state S.Store conn.new) }
    ensures mode { BeginsNone (state S.Store conn.old) (state S.Store conn.new) }
    ensures crash { Survives (state S.Store conn.old) (state S.Store conn.new) (λ _. ⊥) }
{
    receipts_by(alloc, find_rows(alloc, conn, table_def, sql, values))
}

/// The page of receipts that were read. The fault is that of the reading; Store where a value of a row breaks its rule, and
/// Memory where there is none for the receipts and their contents.
fn receipts_page_by(
    alloc: Global,
    read: Result<sql_queries::RowPage, StoreFault>,
) -> Result<Page<Receipt>, StoreFault>
    ensures handed { IfErr read (λ fault. result ≡ Err fault) }
    ensures rows { IfOk read (λ stored. IfOk result
        (λ page. (all_from receipt_from stored.rows.items ≡ Some page.rows)
        × (page.has_more ≡ stored.has_more))) }
{
    let stored = read?;
    decoded_page(
        decode_receipts(alloc, stored.rows.as_slice()),
        stored.has_more,
    )
}

/// A page of the receipts of a table, in the order of the columns with these indexes, as that of the rows of any other.
fn receipts_page_over<S: Alter>(
    alloc: Global,
    conn: &mut Connection<S>,
    table_def: &TableDef<'_>,
    by: &[usize],
    sql: &str,
    values: &[ValueRef<'_>],
) -> Result<Page<Receipt>, StoreFault>
    requires { (places : List ℕ) × (next : ℕ) × SelectsPage table_def.now by.now places next sql.now }
    ensures rows { (places : List ℕ) (next : ℕ) → SelectsPage table_def.now by.now places next sql.now
        → AreBounds places page_size (bound values.now) → HasCleanDisk (state S.Store conn.new)
        → IfOk result (IsPaged (state S.Store conn.old).now table_def.now by.now receipt_from places next
        (bound values.now)) }
    ensures same { AnswersUnchanged (state S.Store conn.old) (state S.Store conn.new) result }
    ensures kept { KeepsVisible (state S.Store conn.old) (state S.Store conn.new) }
    ensures mode { BeginsNone (state S.Store conn.old) (state S.Store conn.new) }
    ensures crash { Survives (state S.Store conn.old) (state S.Store conn.new) (λ _. ⊥) }
{
    let most = usize::from(PAGE_SIZE);
    let read = find_page(alloc, conn, table_def, by, sql, values, most);
    receipts_page_by(alloc, read)
}

impl<'a, S: Alter> Keyed<'a, S> {
    /// The same page over the lent connection: whether the lookup failed is kept.
    fn receipts_page_found(
        &mut self,
        table_def: &TableDef<'_>,
        by: &[usize],
        sql: &str,
        values: &[ValueRef<'_>],
    ) -> Result<Page<Receipt>, StoreFault>
        requires { (places : List ℕ) × (next : ℕ) × SelectsPage table_def.now by.now places next sql.now }
        ensures same_reference { self.new.conn.ghost_name ≡ self.old.conn.ghost_name }
        ensures rows { (places : List ℕ) (next : ℕ) → SelectsPage table_def.now by.now places next sql.now
            → AreBounds places page_size (bound values.now)
            → HasCleanDisk (state S.Store self.new.conn.now)
            → IfOk result (IsPaged (state S.Store self.old.conn.now).now table_def.now by.now receipt_from
            places next (bound values.now)) }
        ensures frame { PreservesFrame (state S.Store self.old.conn.now) (state S.Store self.new.conn.now)
            self.old.has_failed self.new.has_failed }
        ensures cached { self.new.cache.now ≡ self.old.cache.now }
    {
        match receipts_page_over(self.alloc, self.conn, table_def, by, sql, values) {
            Ok(page) => Ok(page),
            Err(fault) => {
                self.has_failed = true;
                Err(fault)
            }
        }
    }

    /// A page of the receipts of a table that have a number after this one in a column, in the order of the columns with these
    /// indexes. Store also where the number is above those that a column holds.
    pub(crate) fn receipts_page_after(
        &mut self,
        table_def: &TableDef<'_>,
        by: &[usize],
        sql: &str,
        cursor: Option<u64>,
    ) -> Result<Page<Receipt>, StoreFault>
        requires { (next : ℕ) × SelectsPage table_def.now by.now [] next sql.now }
        ensures same_reference { self.new.conn.ghost_name ≡ self.old.conn.ghost_name }
        ensures rows { (next : ℕ) → SelectsPage table_def.now by.now [] next sql.now
            → HasCleanDisk (state S.Store self.new.conn.now)
            → IfOk result (IsPaged (state S.Store self.old.conn.now).now table_def.now by.now receipt_from
            [] next (number (number_after cursor) ∷ number (page_size + 1) ∷ [])) }
        ensures frame { PreservesFrame (state S.Store self.old.conn.now) (state S.Store self.new.conn.now)
            self.old.has_failed self.new.has_failed }
        ensures cached { self.new.cache.now ≡ self.old.cache.now }
    {
        let bounds = [large(number_after(cursor))?, small(PAGE_SIZE + 1)];
        self.receipts_page_found(table_def, by, sql, &bounds)
    }

    /// The receipts of a table that have the given values, by the first key of the table.
    fn receipts_found(
        &mut self,
        table_def: &TableDef<'_>,
        sql: &str,
        values: &[ValueRef<'_>],
    ) -> Result<Vec<Receipt>, StoreFault>
        requires { (places : List ℕ) × Selects table_def.now places sql.now }
        ensures same_reference { self.new.conn.ghost_name ≡ self.old.conn.ghost_name }
        ensures rows { (places : List ℕ) → Selects table_def.now places sql.now
            → AreGiven places (bound values.now)
            → HasCleanDisk (state S.Store self.new.conn.now)
            → IfOk result (λ rows. AreFound (state S.Store self.old.conn.now).now table_def.now
            receipt_from places (bound values.now) rows.items) }
        ensures frame { PreservesFrame (state S.Store self.old.conn.now) (state S.Store self.new.conn.now)
            self.old.has_failed self.new.has_failed }
        ensures cached { self.new.cache.now ≡ self.old.cache.now }
    {
        match found_receipts(self.alloc, self.conn, table_def, sql, values) {
            Ok(rows) => Ok(rows),
            Err(fault) => {
                self.has_failed = true;
                Err(fault)
            }
        }
    }

    /// The receipt of the command of a reference.
    pub(crate) fn receipt_of(&mut self, reference: &Id) -> Result<Option<Receipt>, StoreFault>
        ensures same_reference { self.new.conn.ghost_name ≡ self.old.conn.ghost_name }
        ensures reported { IsReported (state S.Store self.old.conn.now) (state S.Store self.new.conn.now)
            self.old.has_failed self.new.has_failed
            (IfOk result (λ row. row
            ≡ receipt_at (abstraction (state S.Store self.old.conn.now).now) reference.now)) }
        ensures cached { self.new.cache.now ≡ self.old.cache.now }
    {
        let rows = self.receipts_found(&RECEIPT, lookup_texts::RECEIPT_BY_ID, &[id(reference)])?;
        Ok(first_of(rows))
    }
}
