ghost use Rattle.std.specs.Prelude.{◌≡◌, false, IsTrue, OnOk, OnErr, IsOkUnless};
ghost use Rattle.sqlite.specs.Effect.{Database, IsDatabase};
ghost use Rattle.sqlite.specs.State.{HasCleanDisk, Survives, KeepsCommit};
ghost use Rattle.sqlite.specs.Held.{state};
ghost use Rattle.plant_view.specs.{changed_all};
ghost use Rattle.plant_view.specs.TableRows.{Tables};
ghost use Rattle.sql_tables.specs.{KeepsOtherTables, AreFree, IsSettled};
ghost use Rattle.plant_tables.specs.DeskTableDefs.{desk_table_defs};
ghost use Rattle.plant_tables.specs.Keyed.{AreFresh, MovesTables};
ghost use Rattle.plant_tables.specs.KeyedRows.{AreKeyed};
ghost use Rattle.plant_tables.specs.DeskCrashStates.{IsAt, FailureLeaves, opening_tables};
ghost use Rattle.plant_tables.specs.DeskCrashStates.{MakesDesk, IsUnopened};

use crate::write::{create, write_change, write_changes};
use plant_base::{Meta, Moment, NEWEST_SCHEMA, Position};
use plant_view::RowChange;
use sql_tables::{StoreFault, TransactionWork, in_one};
use sqlite::{Alter, Connection, Transaction};

/// The writing of some changes.
#[derive(Clone, Copy)]
struct Writing<'a> {
    changes: &'a [RowChange],
}

impl<'a> TransactionWork for Writing<'a> {
    ghost makes = { λ w. MovesTables w.changes.now };

    fn run<S: Alter>(&self, tx: &mut Transaction<'_, S>) -> Result<(), StoreFault> {
        write_changes(tx, self.changes)
    }
}

/// Makes the changes in one transaction, whose commit is the last call of the store. The one fault is
/// [`StoreFault::Store`], where the store refuses one, or where a number is above 2^63 - 1; then nothing is changed, but a
/// commit that failed may be found made after a stop.
pub fn commit_changes<S: Alter>(
    conn: &mut Connection<S>,
    changes: &[RowChange],
) -> Result<(), StoreFault>
    requires { conn.old.in_transaction ≡ false }
    ensures fault { IsOkUnless result StoreFault.Store }
    ensures mode { conn.new.in_transaction ≡ false }
    ensures accepted { HasCleanDisk (state S.Store conn.new) → (t : Tables)
        → IsAt (state S.Store conn.old) t → AreKeyed t → AreFresh changes.now t
        → OnOk result (IsAt (state S.Store conn.new) (changed_all changes.now t)
        × KeepsOtherTables desk_table_defs (state S.Store conn.old).now (state S.Store conn.new).now) }
    ensures after_failure { HasCleanDisk (state S.Store conn.new) → (t : Tables)
        → IsAt (state S.Store conn.old) t → AreKeyed t → AreFresh changes.now t
        → OnErr result (FailureLeaves (state S.Store conn.old) (state S.Store conn.new) t
        (changed_all changes.now t)) }
    ensures survives { Survives (state S.Store conn.old) (state S.Store conn.new)
        (λ trees. (db : Database) × MovesTables changes.now (state S.Store conn.old).now db
        × (trees ≡ db.trees)) }
{
    in_one(conn, &Writing { changes })
}

/// The making of the tables of a desk that has accepted nothing.
#[derive(Clone, Copy)]
struct Opening;

impl TransactionWork for Opening {
    ghost makes = { λ _. MakesDesk };

    fn run<S: Alter>(&self, tx: &mut Transaction<'_, S>) -> Result<(), StoreFault> {
        create(tx, NEWEST_SCHEMA)?;
        let position = Position {
            seq: 0,
            at: Moment::zero(),
        };
        let meta = Meta {
            schema: NEWEST_SCHEMA,
            position,
        };
        write_change(tx, &RowChange::Meta(meta))
    }
}

/// Makes the tables of a desk that has accepted nothing, with their indexes, in one transaction. The one fault is
/// [`StoreFault::Store`], where the store refuses one, as where its name is taken; then nothing is changed, but a commit that
/// failed may be found made after a stop.
pub fn commit_opening<S: Alter>(conn: &mut Connection<S>) -> Result<(), StoreFault>
    requires { conn.old.in_transaction ≡ false }
    ensures fault { IsOkUnless result StoreFault.Store }
    ensures mode { conn.new.in_transaction ≡ false }
    ensures made { HasCleanDisk (state S.Store conn.new) → IsSettled (state S.Store conn.old)
        → IsDatabase (state S.Store conn.old).now → AreFree desk_table_defs (state S.Store conn.old).now.schema
        → OnOk result (IsAt (state S.Store conn.new) opening_tables
        × KeepsOtherTables desk_table_defs (state S.Store conn.old).now (state S.Store conn.new).now) }
    ensures after_failure { HasCleanDisk (state S.Store conn.new) → IsSettled (state S.Store conn.old)
        → IsDatabase (state S.Store conn.old).now → AreFree desk_table_defs (state S.Store conn.old).now.schema
        → OnErr result (IsUnopened (state S.Store conn.old) (state S.Store conn.new)) }
    ensures survives { Survives (state S.Store conn.old) (state S.Store conn.new)
        (λ trees. (db : Database) × MakesDesk (state S.Store conn.old).now db × (trees ≡ db.trees)) }
{
    in_one(conn, &Opening)
}
