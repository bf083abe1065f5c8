//! Pages of a table's rows.

ghost use Rattle.std.specs.Prelude.{◌≡◌, ◌≤◌, ℕ, List, length, IfOk, IfErr};
ghost use Rattle.sqlite.specs.State.{HasCleanDisk, Survives};
ghost use Rattle.sqlite.specs.Held.{state};
ghost use Rattle.sqlite.specs.Values.{bound};
ghost use Rattle.sql_tables.specs.{HasTable};
ghost use Rattle.sql_queries.specs.ReadContracts.{AnswersUnchanged, BeginsNone, KeepsVisible};
ghost use Rattle.sql_queries.specs.Given.{HasGivenRow};
ghost use Rattle.sql_queries.specs.Keys.{is_before};
ghost use Rattle.sql_queries.specs.Paging.{GivesPage, SelectsPage};
ghost use Rattle.sql_queries.specs.Rises.{Rises};

use crate::reading::read_rows;
use sql_tables::{StoreFault, TableDef, is_declared};
use sqlite::types::ValueRef;
use sqlite::{Alter, Connection, Row};
use std::alloc::Global;

/// Rows of a table, and whether more of those that were asked for come after them.
#[derive(Drop)]
pub struct RowPage {
    /// The rows, in the order that was asked for.
    pub rows: Vec<Row>,
    /// Whether the store has more of the rows that were asked for, after these.
    pub has_more: bool,
}

/// The first rows in the order of the columns with these indexes, so many at most, of those that have the given values and
/// one above another in a further column, from a fixed text that selects them; the last value is one more than so many.
/// Store where the table isn't declared as its definition says, where a transaction is open, where a row that is answered doesn't
/// come after the one before it, and where the store fails; Memory where there is none. Nothing is changed.
pub fn find_page<S: Alter>(
    alloc: Global,
    conn: &mut Connection<S>,
    table_def: &TableDef<'_>,
    by: &[usize],
    sql: &str,
    values: &[ValueRef<'_>],
    most: usize,
) -> Result<RowPage, StoreFault>
    requires { (column_indexes : List ℕ) × (next : ℕ) × SelectsPage table_def.now by.now column_indexes next sql.now }
    ensures page { GivesPage table_def.now by.now sql.now (bound values.now) most (state S.Store conn.old)
        (state S.Store conn.new) result }
    ensures few { IfOk result (λ page. length page.rows.items ≤ most) }
    ensures rising { IfOk result (λ page. Rises (is_before by.now) page.rows.items) }
    ensures same { AnswersUnchanged (state S.Store conn.old) (state S.Store conn.new) result }
    ensures kept { KeepsVisible (state S.Store conn.old) (state S.Store conn.new) }
    ensures mode { BeginsNone (state S.Store conn.old) (state S.Store conn.new) }
    ensures crash { Survives (state S.Store conn.old) (state S.Store conn.new) (λ _. ⊥) }
    // Memory is wanted for a row that was given, of a table that exists.
    ensures memory { HasCleanDisk (state S.Store conn.new)
        → IfErr result (λ fault. fault ≡ StoreFault.Memory
        → HasTable conn.old.schema table_def.now
        × HasGivenRow S.Store sql.now (bound values.now) conn.new) }
{
    if !conn.is_autocommit() || !is_declared(conn.schema(), table_def) {
        return Err(StoreFault::Store);
    }
    let mut rows = read_rows(alloc, conn, by, sql, values)?;
    let has_more = rows.len() > most;
    rows.truncate(most);
    Ok(RowPage { rows, has_more })
}
