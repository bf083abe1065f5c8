//! Rows that a query finds, judged by the rules of their values.

ghost use Rattle.std.specs.Prelude.{◌≡◌, ℕ, List, Some, None, Err, IfOk, IfErr};
ghost use Rattle.sqlite.specs.State.{HasCleanDisk, Survives};
ghost use Rattle.sqlite.specs.Held.{state};
ghost use Rattle.sqlite.specs.Values.{bound};
ghost use Rattle.sql_queries.specs.{AnswersUnchanged, BeginsNone, KeepsVisible, AreGiven};
ghost use Rattle.sql_queries.specs.Selects.{Selects};
ghost use Rattle.plant_tables_columns.specs.{all_from};
ghost use Rattle.plant_keyed.specs.Decoding.{AreFound, AreDecoded};

use crate::faults::if_memory;
use plant_tables_columns::{Decoded, decode_all};
use sql_queries::find_rows;
use sql_tables::{StoreFault, TableDef};
use sqlite::types::ValueRef;
use sqlite::{Alter, Connection, Row};
use std::alloc::Global;

/// The rows of a table that have the given values, by the first key of the table. Store where the table isn't
/// declared as its definition says, where a transaction is open, where a value of a row breaks its rule, and where the store
/// fails; Memory where there is none. Nothing is changed.
pub(crate) fn found_rows<S: Alter, R: Decoded>(
    alloc: Global,
    conn: &mut Connection<S>,
    table_def: &TableDef<'_>,
    sql: &str,
    values: &[ValueRef<'_>],
) -> Result<Vec<R>, StoreFault>
    requires { (places : List ℕ) × Selects table_def.now places sql.now }
    ensures rows { (places : List ℕ) → Selects table_def.now places sql.now
        → AreGiven places (bound values.now) → HasCleanDisk (state S.Store conn.new)
        → IfOk result (λ rows. AreFound (state S.Store conn.old).now table_def.now R.row_from places
        (bound values.now) rows.items) }
    ensures decoded { IfOk result (λ rows. AreDecoded R.row_from rows.items) }
    ensures same { AnswersUnchanged (state S.Store conn.old) (state S.Store conn.new) result }
    ensures kept { KeepsVisible (state S.Store conn.old) (state S.Store conn.new) }
    ensures mode { BeginsNone (state S.Store conn.old) (state S.Store conn.new) }
    ensures crash { Survives (state S.Store conn.old) (state S.Store conn.new) (λ _. ⊥) }
{
    decoded_by(alloc, find_rows(alloc, conn, table_def, sql, values))
}

/// The rows of the desk that were read. The faults are those of the reading; Store where a value of a row breaks its rule,
/// and Memory where there is none for the rows.
fn decoded_by<R: Decoded>(
    alloc: Global,
    read: Result<Vec<Row>, StoreFault>,
) -> Result<Vec<R>, StoreFault>
    ensures handed { IfErr read (λ fault. result ≡ Err fault) }
    ensures rows { IfOk read (λ stored. IfOk result
        (λ rows. all_from R.row_from stored.items ≡ Some rows.items)) }
    ensures broken { IfOk read (λ stored. IfErr result
        (λ fault. fault ≡ StoreFault.Store → all_from R.row_from stored.items ≡ None)) }
{
    let stored = read?;
    match if_memory(decode_all(alloc, stored.as_slice()))? {
        Some(rows) => Ok(rows),
        None => Err(StoreFault::Store),
    }
}
