ghost use Rattle.std.specs.Prelude.{◌≡◌, ◌<◌, false, true, IsTrue, length, slice_index_or, ◌-◌};
ghost use Rattle.std.specs.Prelude.{◌++◌, ◌∷◌, [], IfOk, IfErr, OnOk, IsOkUnless, Some};
ghost use Rattle.sqlite.specs.Order.{Row as Values};
ghost use Rattle.sqlite.specs.State.{HasCleanDisk, Survives, Shown};
ghost use Rattle.sqlite.specs.Held.{state};
ghost use Rattle.sqlite.specs.Given.{Advances};
ghost use Rattle.sqlite.specs.Values.{bound};
ghost use Rattle.sql_tables.specs.{IsAtRest, Keeps};
ghost use Rattle.sql_queries.specs.ReadContracts.{AnswersUnchanged, KeepsVisible};
ghost use Rattle.sql_queries.specs.Plain.{OnlyReads};
ghost use Rattle.sql_queries.specs.Given.{HasGivenRow};
ghost use Rattle.sql_queries.specs.Keys as key;
ghost use Rattle.sql_queries.specs.Rises.{Rises};

use crate::keys::is_before;
use sql_tables::{StoreFault, fault_of};
use sqlite::types::ValueRef;
use sqlite::{Alter, Connection, Row, Rows};
use std::alloc::{AllocError, Global};

/// Whether the row may follow the list, in the order of the columns with these indexes.
fn may_follow(by: &[usize], list: &[Row], row: &Row) -> bool
    ensures follows { IsTrue result → (d : Values) → 0 < length list.now
        → key.is_before by.now (slice_index_or list.now (length list.now - 1) d) row.now
        ≡ true }
    ensures stops { result ≡ false → (d : Values)
        → key.is_before by.now (slice_index_or list.now (length list.now - 1) d) row.now
        ≡ false }
    ensures first { list.now ≡ [] → result ≡ true }
{
    match list.last() {
        Some(last) => is_before(by, last, row),
        None => true,
    }
}

/// A copy of a row. Memory where there is none for it.
fn copied(row: &Row) -> Result<Row, StoreFault>
    ensures fault { IsOkUnless result StoreFault.Memory }
    ensures copy { IfOk result (λ copy. copy ≡ row.now) }
{
    match row.copy() {
        Ok(copy) => Ok(copy),
        Err(AllocError) => Err(StoreFault::Memory),
    }
}

/// The next row. Store where the store fails, Memory where there is none for a copy of the row.
fn next_row<S: Alter>(rows: &mut Rows<'_, S>) -> Result<Option<Row>, StoreFault>
    ensures same_reference { rows.new.conn.ghost_name ≡ rows.old.conn.ghost_name }
    ensures ok { HasCleanDisk (state S.Store rows.new.conn.now)
        → IfOk result (λ row. Advances S.Store rows.old.conn.now rows.new.conn.now row) }
    ensures same { AnswersUnchanged (state S.Store rows.old.conn.now) (state S.Store rows.new.conn.now) result }
    ensures kept { HasCleanDisk (state S.Store rows.new.conn.now)
        → IsAtRest (state S.Store rows.old.conn.now)
        → Keeps (state S.Store rows.old.conn.now) (state S.Store rows.new.conn.now) }
    ensures mode { rows.old.conn.now.in_transaction ≡ false → rows.new.conn.now.in_transaction ≡ false }
    ensures survives { Survives (state S.Store rows.old.conn.now) (state S.Store rows.new.conn.now)
        (λ _. ⊥) }
    // Memory is wanted for a row that was given.
    ensures memory { HasCleanDisk (state S.Store rows.new.conn.now)
        → IfErr result (λ fault. fault ≡ StoreFault.Memory
        → (row : _) × Advances S.Store rows.old.conn.now rows.new.conn.now (Some row)) }
{
    match rows.advance() {
        Ok(()) => (),
        Err(failure) => return Err(fault_of(failure)),
    }
    match rows.get() {
        Some(row) => Ok(Some(copied(row)?)),
        None => Ok(None),
    }
}

/// Puts a row at the end of the list. Memory where there is none for the list to grow.
fn keep(list: &mut Vec<Row>, row: Row) -> Result<(), StoreFault>
    ensures fault { IsOkUnless result StoreFault.Memory }
    ensures kept { OnOk result (list.new.items ≡ list.old.items ++ row ∷ []) }
{
    match list.push(row) {
        Ok(()) => Ok(()),
        Err(_) => Err(StoreFault::Memory),
    }
}

/// All rows of the answer to a fixed text that only reads, one at a time and in the order of the columns with these indexes.
/// Store where the store fails, or answers a row that doesn't come after the one before it; Memory where there is none.
/// Nothing is changed.
pub fn read_rows<S: Alter>(
    alloc: Global,
    conn: &mut Connection<S>,
    by: &[usize],
    sql: &str,
    params: &[ValueRef<'_>],
) -> Result<Vec<Row>, StoreFault>
    requires only_reads { OnlyReads conn.old.schema sql.now }
    requires rest { IsAtRest (state S.Store conn.old) }
    ensures rows { HasCleanDisk (state S.Store conn.new)
        → IfOk result (λ list. Shown sql.now (bound params.now) (state S.Store conn.old)
        (state S.Store conn.new) list.items) }
    ensures rising { IfOk result (λ list. Rises (key.is_before by.now) list.items) }
    ensures same { AnswersUnchanged (state S.Store conn.old) (state S.Store conn.new) result }
    ensures kept { KeepsVisible (state S.Store conn.old) (state S.Store conn.new) }
    ensures mode { (state S.Store conn.new).in_transaction ≡ false }
    ensures crash { Survives (state S.Store conn.old) (state S.Store conn.new) (λ _. ⊥) }
    // Memory is wanted for a row that was given.
    ensures memory { HasCleanDisk (state S.Store conn.new)
        → IfErr result (λ fault. fault ≡ StoreFault.Memory
        → HasGivenRow S.Store sql.now (bound params.now) conn.new) }
{
    let mut list = Vec::new(alloc);
    let mut rows = match conn.query(sql, params) {
        Ok(rows) => rows,
        Err(error) => return Err(fault_of(error)),
    };
    'rows: for _ in 0..u64::MAX {
        let Some(row) = next_row(&mut rows)? else {
            return Ok(list);
        };
        if !may_follow(by, list.as_slice(), &row) {
            return Err(StoreFault::Store);
        }
        keep(&mut list, row)?;
    }
    Err(StoreFault::Store)
}
