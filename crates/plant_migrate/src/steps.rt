//! The migration of tables by some versions, each in a transaction of its own.

ghost use Rattle.std.specs.Prelude.{◌≡◌, ◌↔◌, ◌+◌, ◌≤◌, true, false, OnOk, OnErr, IsOkUnless};
ghost use Rattle.sqlite.specs.State.{HasCleanDisk, Survives};
ghost use Rattle.sqlite.specs.Held.{state};
ghost use Rattle.plant_base.specs.{newest_schema};
ghost use Rattle.plant_view.specs.TableRows.{Tables};
ghost use Rattle.sql_tables.specs.{AreFree, KeepsOtherTables, IsSettled};
ghost use Rattle.plant_tables.specs.{desk_table_defs, later_table_defs, IsAtOf, FailureLeavesOf};
ghost use Rattle.plant_tables.specs.{IsOlder};
ghost use Rattle.plant_migrate.specs.MigrationContracts.{FailureLeavesBy, MigratesBy};
ghost use Rattle.plant_migrate.specs.Migrated.{AreEdges, migrated_once};
ghost use Rattle.plant_migrate.specs.Steps.{IsMigratable, IsMigratedOnce, IsMigratedBy};

use crate::changes::added_rows;
use plant_base::Position;
use plant_tables::table_defs::{desk_table_defs, tables_in};
use plant_tables::{commit_migration, lacks_counts};
use plant_view::RowChange;
use sql_queries::all_free;
use sql_tables::StoreFault;
use sqlite::{Alter, Connection};
use sqlite_schema::schema::Schema;

/// Whether the tables that later schemas add to those of this version can be made: their names are free, and no table
/// still wants SQLite's own table of counts.
fn can_migrate(schema: &Schema, version: u64) -> bool
    ensures { (result ≡ true) ↔ AreFree (later_table_defs version) schema.now }
{
    let table_defs = desk_table_defs();
    let (_, later) = table_defs.split_at(tables_in(version));
    all_free(schema, later) && !lacks_counts(schema)
}

/// Migrates tables of a version to the next, in one transaction: an edge for each movement that makes one, where the next is
/// the second, and the version. Store where the later tables can't be made, where the store fails, or where a number is
/// above 2^63 - 1.
fn migrate_one<S: Alter>(
    conn: &mut Connection<S>,
    version: u64,
    position: &Position,
    edges: &[RowChange],
) -> Result<(), StoreFault>
    requires mode { conn.old.in_transaction ≡ false }
    requires older { IsOlder version }
    requires edges { AreEdges edges.now }
    ensures fault { IsOkUnless result StoreFault.Store }
    ensures mode { conn.new.in_transaction ≡ false }
    ensures migrated { HasCleanDisk (state S.Store conn.new) → IsSettled (state S.Store conn.old)
        → (t : Tables) → IsMigratable version (state S.Store conn.old).now t
        → OnOk result (IsAtOf (version + 1) (state S.Store conn.new)
        (migrated_once version position.now edges.now t)
        × KeepsOtherTables desk_table_defs (state S.Store conn.old).now (state S.Store conn.new).now) }
    ensures after_failure { HasCleanDisk (state S.Store conn.new) → IsSettled (state S.Store conn.old)
        → (t : Tables) → IsMigratable version (state S.Store conn.old).now t
        → OnErr result (FailureLeavesOf version (version + 1) (state S.Store conn.old)
        (state S.Store conn.new) t (migrated_once version position.now edges.now t)) }
    ensures could { OnOk result (AreFree (later_table_defs version) (state S.Store conn.old).now.schema) }
    ensures survives { Survives (state S.Store conn.old) (state S.Store conn.new)
        (IsMigratedOnce version position.now edges.now (state S.Store conn.old).now) }
{
    if !can_migrate(conn.schema(), version) {
        return Err(StoreFault::Store);
    }
    commit_migration(conn, version, *position, added_rows(version, edges))
}

/// Migrates tables of a version by so many versions, one after the other, each in one transaction. The fault is that of the
/// first version that they couldn't be migrated to: they stay at the one before it.
pub(crate) fn migrate_by<S: Alter>(
    conn: &mut Connection<S>,
    version: u64,
    steps: u64,
    position: &Position,
    edges: &[RowChange],
) -> Result<(), StoreFault>
    requires mode { conn.old.in_transaction ≡ false }
    requires known { 1 ≤ version }
    requires newest { version + steps ≤ newest_schema }
    requires edges { AreEdges edges.now }
    ensures fault { IsOkUnless result StoreFault.Store }
    ensures mode { conn.new.in_transaction ≡ false }
    ensures migrated { MigratesBy version steps position.now edges.now (state S.Store conn.old)
        (state S.Store conn.new) result }
    ensures after_failure { FailureLeavesBy version steps position.now edges.now (state S.Store conn.old)
        (state S.Store conn.new) result }
    ensures survives { Survives (state S.Store conn.old) (state S.Store conn.new)
        (IsMigratedBy version steps position.now edges.now (state S.Store conn.old)) }
{
    for done in 0..steps {
        migrate_one(conn, version + done, position, edges)?;
    }
    Ok(())
}
