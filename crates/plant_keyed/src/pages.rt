//! Pages of the rows that a query finds, judged by the rules of their values.

ghost use Rattle.std.specs.Prelude.{◌≡◌, ◌+◌, [], ◌∷◌, false, ℕ, List, Some, Err, IfOk, IfErr};
ghost use Rattle.std.specs.Prelude.{IfSome, IfNone};
ghost use Rattle.sqlite.specs.State.{HasCleanDisk, Survives};
ghost use Rattle.sqlite.specs.Held.{state};
ghost use Rattle.sqlite.specs.Values.{bound, bound_value};
ghost use Rattle.sqlite.specs.declared.types.Value.TheVariants.{Text};
ghost use Rattle.sqlite_sql.specs.Ops.{is_null};
ghost use Rattle.sqlite_value.specs.Value.{owned};
ghost use Rattle.sql_queries.specs.{AnswersUnchanged, BeginsNone, KeepsVisible, SelectsPage};
ghost use Rattle.sql_queries.specs.{AreBounds, first_of};
ghost use Rattle.plant_tables_columns.specs.{all_from, number};
ghost use Rattle.plant_questions.specs.{page_size, text_after};
ghost use Rattle.plant_keyed.specs.LookupOutcomes.{PreservesFrame, IsReported};
ghost use Rattle.plant_keyed.specs.Paging.{IsPaged, IsPagedBeyond};

use crate::faults::if_memory;
use crate::keyed::Keyed;
use plant_base::{Id, Items};
use plant_questions::{HasKeyOrder, PAGE_SIZE, Page, merge_pages, text_after};
use plant_tables_columns::storing::{small, word};
use plant_tables_columns::{Decoded, decode_all};
use sql_queries::{find_page, first_key};
use sql_tables::{StoreFault, TableDef};
use sqlite::types::ValueRef;
use sqlite::{Alter, Connection};
use std::alloc::{AllocError, Global};

/// The page of a list whose rows were read. The fault is that of the reading; Store where a value of a row breaks its rule, and
/// Memory where there is none for the rows.
fn page_by<R: Decoded>(
    alloc: Global,
    read: Result<sql_queries::RowPage, StoreFault>,
) -> Result<Page<R>, StoreFault>
    ensures handed { IfErr read (λ fault. result ≡ Err fault) }
    ensures rows { IfOk read (λ stored. IfOk result
        (λ page. (all_from R.row_from stored.rows.items ≡ Some page.rows)
        × (page.has_more ≡ stored.has_more))) }
{
    let stored = read?;
    decoded_page(decode_all(alloc, stored.rows.as_slice()), stored.has_more)
}

/// The page of rows that were decoded. Store where one of them has a value that breaks its rule, and Memory where memory was refused
/// for them.
pub(crate) fn decoded_page<R>(
    decoded: Result<Option<Vec<R>>, AllocError>,
    has_more: bool,
) -> Result<Page<R>, StoreFault>
    ensures rows { IfOk decoded (λ found. IfSome found (λ rows. IfOk result
        (λ page. (page.rows ≡ rows.items) × (page.has_more ≡ has_more)))) }
    ensures broken { IfOk decoded (λ found. IfNone found (result ≡ Err StoreFault.Store)) }
    ensures refused { IfErr decoded (λ _. result ≡ Err StoreFault.Memory) }
    ensures only { IfOk result (λ page. IfOk decoded (λ found. IfSome found (λ rows. page.rows ≡ rows.items))) }
{
    match decoded {
        Ok(Some(rows)) => Ok(Page {
            rows: Items::new(rows),
            has_more,
        }),
        Ok(None) => Err(StoreFault::Store),
        Err(_) => Err(StoreFault::Memory),
    }
}

/// A page of the rows of a table, in the order of the columns with these indexes. Store where a value of a row breaks its rule,
/// and as `find_page`; Memory where there is none. Nothing is changed.
fn page_over<S: Alter, R: Decoded>(
    alloc: Global,
    conn: &mut Connection<S>,
    table_def: &TableDef<'_>,
    by: &[usize],
    sql: &str,
    values: &[ValueRef<'_>],
) -> Result<Page<R>, StoreFault>
    requires { (places : List ℕ) × (next : ℕ) × SelectsPage table_def.now by.now places next sql.now }
    ensures rows { (places : List ℕ) (next : ℕ) → SelectsPage table_def.now by.now places next sql.now
        → AreBounds places page_size (bound values.now) → HasCleanDisk (state S.Store conn.new)
        → IfOk result (IsPaged (state S.Store conn.old).now table_def.now by.now R.row_from places next
        (bound values.now)) }
    ensures same { AnswersUnchanged (state S.Store conn.old) (state S.Store conn.new) result }
    ensures kept { KeepsVisible (state S.Store conn.old) (state S.Store conn.new) }
    ensures mode { BeginsNone (state S.Store conn.old) (state S.Store conn.new) }
    ensures crash { Survives (state S.Store conn.old) (state S.Store conn.new) (λ _. ⊥) }
{
    let most = usize::from(PAGE_SIZE);
    let read = find_page(alloc, conn, table_def, by, sql, values, most);
    page_by(alloc, read)
}

impl<'a, S: Alter> Keyed<'a, S> {
    /// The same over the lent connection: whether the lookup failed is kept.
    fn page_found<R: Decoded>(
        &mut self,
        table_def: &TableDef<'_>,
        by: &[usize],
        sql: &str,
        values: &[ValueRef<'_>],
    ) -> Result<Page<R>, StoreFault>
        requires { (places : List ℕ) × (next : ℕ) × SelectsPage table_def.now by.now places next sql.now }
        ensures same_reference { self.new.conn.ghost_name ≡ self.old.conn.ghost_name }
        ensures rows { (places : List ℕ) (next : ℕ) → SelectsPage table_def.now by.now places next sql.now
            → AreBounds places page_size (bound values.now)
            → HasCleanDisk (state S.Store self.new.conn.now)
            → IfOk result (IsPaged (state S.Store self.old.conn.now).now table_def.now by.now R.row_from
            places next (bound values.now)) }
        ensures frame { PreservesFrame (state S.Store self.old.conn.now) (state S.Store self.new.conn.now)
            self.old.has_failed self.new.has_failed }
        ensures cached { self.new.cache.now ≡ self.old.cache.now }
    {
        match page_over(self.alloc, self.conn, table_def, by, sql, values) {
            Ok(page) => Ok(page),
            Err(fault) => {
                self.has_failed = true;
                Err(fault)
            }
        }
    }

    /// A page of the rows that have this value in one column, and after this id one in another.
    pub(crate) fn page_with<'v, R: Decoded>(
        &mut self,
        table_def: &TableDef<'_>,
        sql: &str,
        given: ValueRef<'v>,
        cursor: &'v Option<Id>,
    ) -> Result<Page<R>, StoreFault>
        requires { (place : ℕ) × (next : ℕ)
            × SelectsPage table_def.now (first_of table_def.now.keys) (place ∷ []) next sql.now }
        ensures same_reference { self.new.conn.ghost_name ≡ self.old.conn.ghost_name }
        ensures rows { (place next : ℕ)
            → SelectsPage table_def.now (first_of table_def.now.keys) (place ∷ []) next sql.now
            → is_null (bound_value (owned given.entry)) ≡ false
            → HasCleanDisk (state S.Store self.new.conn.now)
            → IfOk result (IsPaged (state S.Store self.old.conn.now).now table_def.now
            (first_of table_def.now.keys) R.row_from (place ∷ []) next
            (bound_value (owned given.entry) ∷ Text (text_after cursor.now)
            ∷ number (page_size + 1) ∷ [])) }
        ensures frame { PreservesFrame (state S.Store self.old.conn.now) (state S.Store self.new.conn.now)
            self.old.has_failed self.new.has_failed }
        ensures cached { self.new.cache.now ≡ self.old.cache.now }
    {
        let bounds = [given, word(text_after(cursor)), small(PAGE_SIZE + 1)];
        self.page_found(table_def, first_key(table_def), sql, &bounds)
    }

    /// A page of the rows that have an id after this one in a column.
    pub(crate) fn page_after<R: Decoded>(
        &mut self,
        table_def: &TableDef<'_>,
        sql: &str,
        cursor: &Option<Id>,
    ) -> Result<Page<R>, StoreFault>
        requires { (next : ℕ) × SelectsPage table_def.now (first_of table_def.now.keys) [] next sql.now }
        ensures same_reference { self.new.conn.ghost_name ≡ self.old.conn.ghost_name }
        ensures rows { (next : ℕ) → SelectsPage table_def.now (first_of table_def.now.keys) [] next sql.now
            → HasCleanDisk (state S.Store self.new.conn.now)
            → IfOk result (IsPaged (state S.Store self.old.conn.now).now table_def.now
            (first_of table_def.now.keys) R.row_from [] next
            (Text (text_after cursor.now) ∷ number (page_size + 1) ∷ [])) }
        ensures frame { PreservesFrame (state S.Store self.old.conn.now) (state S.Store self.new.conn.now)
            self.old.has_failed self.new.has_failed }
        ensures cached { self.new.cache.now ≡ self.old.cache.now }
    {
        let bounds = [word(text_after(cursor)), small(PAGE_SIZE + 1)];
        self.page_found(table_def, first_key(table_def), sql, &bounds)
    }

    /// A page of the rows that have this value in one column, and come after a cursor of two values in two others, in the order
    /// of the columns with these indexes: by one text those with its first value and after its second, by another those after its
    /// first. The faults are those of each lookup.
    pub(crate) fn page_beyond<'v, R: Decoded + HasKeyOrder + Copy + Drop>(
        &mut self,
        table_def: &TableDef<'_>,
        by: &[usize],
        at: &str,
        beyond: &str,
        given: ValueRef<'v>,
        first: ValueRef<'v>,
        second: ValueRef<'v>,
    ) -> Result<Page<R>, StoreFault>
        requires { (place : ℕ) × (next : ℕ) × (last : ℕ)
            × SelectsPage table_def.now by.now (place ∷ next ∷ []) last at.now
            × SelectsPage table_def.now by.now (place ∷ []) next beyond.now }
        ensures same_reference { self.new.conn.ghost_name ≡ self.old.conn.ghost_name }
        ensures reported { (place next last : ℕ)
            → SelectsPage table_def.now by.now (place ∷ next ∷ []) last at.now
            → SelectsPage table_def.now by.now (place ∷ []) next beyond.now
            → is_null (bound_value (owned given.entry)) ≡ false
            → is_null (bound_value (owned first.entry)) ≡ false
            → is_null (bound_value (owned second.entry)) ≡ false
            → IsReported (state S.Store self.old.conn.now) (state S.Store self.new.conn.now)
            self.old.has_failed self.new.has_failed
            (IfOk result (IsPagedBeyond (state S.Store self.old.conn.now).now table_def.now
            by.now R.row_from R.order place next last (bound_value (owned given.entry))
            (bound_value (owned first.entry)) (bound_value (owned second.entry)))) }
        ensures frame { PreservesFrame (state S.Store self.old.conn.now) (state S.Store self.new.conn.now)
            self.old.has_failed self.new.has_failed }
        ensures cached { self.new.cache.now ≡ self.old.cache.now }
    {
        let place = [given, first, second, small(PAGE_SIZE + 1)];
        let near = self.page_found(table_def, by, at, &place)?;
        let far = self.page_found(table_def, by, beyond, &[given, first, small(PAGE_SIZE + 1)])?;
        if_memory(merge_pages(self.alloc, &near, &far))
    }
}
