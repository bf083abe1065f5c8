ghost use Rattle.std.specs.Prelude.{◌≡◌, [], map, IfOk, OnOk, IsOkUnless, IsTrue};
ghost use Rattle.sqlite.specs.State.{HasCleanDisk, Survives, KeepsCommit};
ghost use Rattle.sqlite.specs.Values.{bound};
ghost use Rattle.sqlite.specs.Held.{state};
ghost use Rattle.sql_tables.specs.Moves.{RunsInside, Upserts, DeletesRows, CreatesTables};
ghost use Rattle.sql_tables.specs.Moves.{KeepsNamesFree};
ghost use Rattle.sql_tables.specs.Indexes.{MakesIndexes};

use crate::fault::{StoreFault, fault_of};
use crate::table_def::CreateIndexStatement;
use sqlite::{Alter, Error, Transaction};
use sqlite_value::value::ValueRef;

/// Runs a statement inside the transaction. What the store promises of it is put once into the words that the
/// rest needs.
fn run<S: Alter>(
    tx: &mut Transaction<'_, S>,
    sql: &str,
    params: &[ValueRef<'_>],
) -> Result<usize, Error>
    ensures same_reference { tx.new.conn.ghost_name ≡ tx.old.conn.ghost_name }
    ensures runs { HasCleanDisk (state S.Store tx.new.conn.now)
        → IfOk result (RunsInside sql.now (bound params.now) (state S.Store tx.old.conn.now)
        (state S.Store tx.new.conn.now)) }
    ensures kept { HasCleanDisk (state S.Store tx.new.conn.now)
        → KeepsCommit (state S.Store tx.old.conn.now) (state S.Store tx.new.conn.now) }
    ensures survives { Survives (state S.Store tx.old.conn.now) (state S.Store tx.new.conn.now) (λ _. ⊥) }
{
    tx.execute(sql, params)
}

/// Puts a row instead of those that are equal to it in some key, by a text that adds it, or that updates the row with
/// its key. The one fault is [`StoreFault::Store`], where the store refuses the text, as it does where a row would have to go
/// that the text doesn't update, and may where it isn't one of a table that exists.
pub fn put_row<S: Alter>(
    tx: &mut Transaction<'_, S>,
    sql: &str,
    values: &[ValueRef<'_>],
) -> Result<(), StoreFault>
    ensures fault { IsOkUnless result StoreFault.Store }
    ensures same_reference { tx.new.conn.ghost_name ≡ tx.old.conn.ghost_name }
    ensures put { HasCleanDisk (state S.Store tx.new.conn.now)
        → OnOk result (Upserts sql.now (bound values.now) (state S.Store tx.old.conn.now)
        (state S.Store tx.new.conn.now)) }
    ensures kept { HasCleanDisk (state S.Store tx.new.conn.now)
        → KeepsCommit (state S.Store tx.old.conn.now) (state S.Store tx.new.conn.now) }
    ensures survives { Survives (state S.Store tx.old.conn.now) (state S.Store tx.new.conn.now) (λ _. ⊥) }
{
    match run(tx, sql, values) {
        Ok(_) => Ok(()),
        Err(error) => Err(fault_of(error)),
    }
}

/// Takes away the rows with these values in the columns of a key, by a text that deletes them. The fault is that of
/// [`put_row`].
pub fn delete_rows<S: Alter>(
    tx: &mut Transaction<'_, S>,
    sql: &str,
    values: &[ValueRef<'_>],
) -> Result<(), StoreFault>
    ensures fault { IsOkUnless result StoreFault.Store }
    ensures same_reference { tx.new.conn.ghost_name ≡ tx.old.conn.ghost_name }
    ensures taken { HasCleanDisk (state S.Store tx.new.conn.now)
        → OnOk result (DeletesRows sql.now (bound values.now) (state S.Store tx.old.conn.now)
        (state S.Store tx.new.conn.now)) }
    ensures kept { HasCleanDisk (state S.Store tx.new.conn.now)
        → KeepsCommit (state S.Store tx.old.conn.now) (state S.Store tx.new.conn.now) }
    ensures survives { Survives (state S.Store tx.old.conn.now) (state S.Store tx.new.conn.now) (λ _. ⊥) }
{
    match run(tx, sql, values) {
        Ok(_) => Ok(()),
        Err(error) => Err(fault_of(error)),
    }
}

/// Runs a statement without parameters inside the transaction.
fn run_plain<S: Alter>(tx: &mut Transaction<'_, S>, sql: &str) -> Result<(), StoreFault>
    ensures fault { IsOkUnless result StoreFault.Store }
    ensures same_reference { tx.new.conn.ghost_name ≡ tx.old.conn.ghost_name }
    ensures runs { HasCleanDisk (state S.Store tx.new.conn.now)
        → OnOk result ((count : _) × RunsInside sql.now [] (state S.Store tx.old.conn.now)
        (state S.Store tx.new.conn.now) count) }
    ensures kept { HasCleanDisk (state S.Store tx.new.conn.now)
        → KeepsCommit (state S.Store tx.old.conn.now) (state S.Store tx.new.conn.now) }
    ensures survives { Survives (state S.Store tx.old.conn.now) (state S.Store tx.new.conn.now) (λ _. ⊥) }
{
    match run(tx, sql, &[]) {
        Ok(_) => Ok(()),
        Err(error) => Err(fault_of(error)),
    }
}

/// Makes tables, one by each text, up to the first that the store refuses: [`StoreFault::Store`], the one fault. Further tables
/// that could be made still can.
pub fn create_tables<S: Alter>(
    tx: &mut Transaction<'_, S>,
    texts: &[&str],
) -> Result<(), StoreFault>
    ensures fault { IsOkUnless result StoreFault.Store }
    ensures same_reference { tx.new.conn.ghost_name ≡ tx.old.conn.ghost_name }
    ensures made { HasCleanDisk (state S.Store tx.new.conn.now)
        → OnOk result (CreatesTables (map (λ text. text.now) texts.now)
        (state S.Store tx.old.conn.now) (state S.Store tx.new.conn.now)) }
    ensures no_crash_state_added { HasCleanDisk (state S.Store tx.new.conn.now)
        → OnOk result (KeepsNamesFree (map (λ text. text.now) texts.now)
        (state S.Store tx.old.conn.now) (state S.Store tx.new.conn.now)) }
    ensures kept { HasCleanDisk (state S.Store tx.new.conn.now)
        → KeepsCommit (state S.Store tx.old.conn.now) (state S.Store tx.new.conn.now) }
    ensures survives { Survives (state S.Store tx.old.conn.now) (state S.Store tx.new.conn.now) (λ _. ⊥) }
{
    for text in texts {
        run_plain(tx, text)?;
    }
    Ok(())
}

/// Makes indexes of tables, one by each text, up to the first that the store refuses: [`StoreFault::Store`], the one
/// fault. The tables keep their rows.
pub fn run_create_indexes<S: Alter>(
    tx: &mut Transaction<'_, S>,
    texts: &[CreateIndexStatement<'_>],
) -> Result<(), StoreFault>
    ensures fault { IsOkUnless result StoreFault.Store }
    ensures same_reference { tx.new.conn.ghost_name ≡ tx.old.conn.ghost_name }
    ensures made { HasCleanDisk (state S.Store tx.new.conn.now)
        → OnOk result (MakesIndexes (map (λ text. text.sql.now) texts.now)
        (state S.Store tx.old.conn.now) (state S.Store tx.new.conn.now)) }
    // Whatever the texts are, the transaction goes on.
    ensures inside { HasCleanDisk (state S.Store tx.new.conn.now)
        → IsTrue (state S.Store tx.old.conn.now).is_open
        → IsTrue (state S.Store tx.old.conn.now).in_transaction
        → OnOk result (IsTrue (state S.Store tx.new.conn.now).in_transaction) }
    ensures kept { HasCleanDisk (state S.Store tx.new.conn.now)
        → KeepsCommit (state S.Store tx.old.conn.now) (state S.Store tx.new.conn.now) }
    ensures survives { Survives (state S.Store tx.old.conn.now) (state S.Store tx.new.conn.now) (λ _. ⊥) }
{
    for text in texts {
        run_plain(tx, text.sql)?;
    }
    Ok(())
}
