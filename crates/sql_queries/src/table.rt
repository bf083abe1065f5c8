ghost use Rattle.std.specs.Prelude.{◌≡◌, ◌↔◌, [], true, false, All, List, ℕ, IfOk, IfErr};
ghost use Rattle.sqlite.specs.State.{HasCleanDisk, Survives};
ghost use Rattle.sqlite.specs.Held.{state};
ghost use Rattle.sqlite.specs.Values.{bound};
ghost use Rattle.sql_tables.specs.{HasTable, IsFree};
ghost use Rattle.sql_queries.specs.ReadContracts.{AnswersUnchanged, BeginsNone, KeepsVisible};
ghost use Rattle.sql_queries.specs.Found.{AreGiven};
ghost use Rattle.sql_queries.specs.Reading.{Lists, Finds};
ghost use Rattle.sql_queries.specs.Given.{HasGivenRow};
ghost use Rattle.sql_queries.specs.Keys.{comes_before};
ghost use Rattle.sql_queries.specs.Rises.{Rises};
ghost use Rattle.sql_queries.specs.Selects.{Selects};

use crate::keys::first_key;
use crate::reading::read_rows;
use sql_tables::{StoreFault, TableDef, is_declared, is_free};
use sqlite::types::ValueRef;
use sqlite::{Alter, Connection, Row};
use sqlite_schema::schema::Schema;
use std::alloc::Global;

/// Whether each of the tables is declared as its definition says. It reads the schema alone, and takes no memory.
pub fn are_all_declared(schema: &Schema, table_defs: &[TableDef<'_>]) -> bool
    ensures { (result ≡ true) ↔ All (HasTable schema.now) table_defs.now }
{
    for table_def in table_defs {
        if !is_declared(schema, table_def) {
            return false;
        }
    }
    true
}

/// Whether none of the tables exists, and their names are free: no table, index or view bears one, and no foreign key
/// names one. It reads the schema alone, and takes no memory.
pub fn all_free(schema: &Schema, table_defs: &[TableDef<'_>]) -> bool
    ensures { (result ≡ true) ↔ All (IsFree schema.now) table_defs.now }
{
    for table_def in table_defs {
        if !is_free(schema, table_def) {
            return false;
        }
    }
    true
}

/// The rows of the table that have the given values, by the first key of the table, from a fixed text that selects
/// them. Store where the table isn't declared as its definition says, where a transaction is open, and where the store
/// fails; Memory where there is none. Nothing is changed.
pub fn find_rows<S: Alter>(
    alloc: Global,
    conn: &mut Connection<S>,
    table_def: &TableDef<'_>,
    sql: &str,
    values: &[ValueRef<'_>],
) -> Result<Vec<Row>, StoreFault>
    requires { (column_indexes : List ℕ) × Selects table_def.now column_indexes sql.now }
    ensures rows { (column_indexes : List ℕ) → Selects table_def.now column_indexes sql.now
        → AreGiven column_indexes (bound values.now) → HasCleanDisk (state S.Store conn.new)
        → IfOk result (λ list. Finds (state S.Store conn.old).now table_def.now column_indexes
        (bound values.now) list.items) }
    ensures rising { IfOk result (λ list. Rises (comes_before table_def.now) list.items) }
    ensures same { AnswersUnchanged (state S.Store conn.old) (state S.Store conn.new) result }
    ensures kept { KeepsVisible (state S.Store conn.old) (state S.Store conn.new) }
    ensures mode { BeginsNone (state S.Store conn.old) (state S.Store conn.new) }
    ensures crash { Survives (state S.Store conn.old) (state S.Store conn.new) (λ _. ⊥) }
    // Memory is wanted for a row that was given, of a table that exists.
    ensures memory { HasCleanDisk (state S.Store conn.new)
        → IfErr result (λ fault. fault ≡ StoreFault.Memory
        → HasTable conn.old.schema table_def.now
        × HasGivenRow S.Store sql.now (bound values.now) conn.new) }
{
    if !conn.is_autocommit() || !is_declared(conn.schema(), table_def) {
        return Err(StoreFault::Store);
    }
    read_rows(alloc, conn, first_key(table_def), sql, values)
}

/// All rows of the table, by its first key, from the fixed text that selects them. Store where the table isn't declared
/// as its definition says, where a transaction is open, and where the store fails; Memory where there is none. Nothing is
/// changed.
pub fn read_table<S: Alter>(
    alloc: Global,
    conn: &mut Connection<S>,
    table_def: &TableDef<'_>,
    sql: &str,
) -> Result<Vec<Row>, StoreFault>
    requires { Selects table_def.now [] sql.now }
    ensures rows { HasCleanDisk (state S.Store conn.new)
        → IfOk result (λ list. Lists (state S.Store conn.old).now table_def.now list.items) }
    ensures rising { IfOk result (λ list. Rises (comes_before table_def.now) list.items) }
    ensures same { AnswersUnchanged (state S.Store conn.old) (state S.Store conn.new) result }
    ensures kept { KeepsVisible (state S.Store conn.old) (state S.Store conn.new) }
    ensures mode { BeginsNone (state S.Store conn.old) (state S.Store conn.new) }
    ensures crash { Survives (state S.Store conn.old) (state S.Store conn.new) (λ _. ⊥) }
    // Memory is wanted for a row of a table that exists.
    ensures memory { HasCleanDisk (state S.Store conn.new)
        → IfErr result (λ fault. fault ≡ StoreFault.Memory → HasTable conn.old.schema table_def.now) }
{
    find_rows(alloc, conn, table_def, sql, &[])
}
