//! The migration of tables whose rows are at hand.

ghost use Rattle.std.specs.Prelude.{◌≡◌, ◌≤◌, ◌-◌, false, IfErr};
ghost use Rattle.sqlite.specs.State.{Survives};
ghost use Rattle.sqlite.specs.Held.{state};
ghost use Rattle.plant_base.specs.{newest_schema};
ghost use Rattle.plant_migrate.specs.MigrationContracts.{FailureLeavesRows, MigratesRows};
ghost use Rattle.plant_migrate.specs.Migrated.{edges_from};
ghost use Rattle.plant_migrate.specs.Steps.{IsMigratedBy};

use crate::changes::edges_from;
use crate::steps::migrate_by;
use plant_tables::DeskRows;
use sql_tables::StoreFault;
use sqlite::{Alter, Connection};
use std::alloc::Global;

/// Migrates tables of a version, whose rows these are, to this schema, one version after the other, each in one transaction:
/// an edge for each movement that makes one, where the next is the second, and the version. Store where the later tables
/// can't be made, where the store fails, or where a number is above 2^63 - 1; Memory where memory for the edges was
/// refused, and then nothing was written.
pub fn migrate_rows<S: Alter>(
    alloc: Global,
    conn: &mut Connection<S>,
    version: u64,
    to: u64,
    rows: &DeskRows,
) -> Result<(), StoreFault>
    requires mode { conn.old.in_transaction ≡ false }
    requires known { 1 ≤ version }
    requires low { version ≤ to }
    requires newest { to ≤ newest_schema }
    ensures mode { conn.new.in_transaction ≡ false }
    ensures migrated { MigratesRows version to rows.now (state S.Store conn.old) (state S.Store conn.new)
        result }
    ensures after_failure { FailureLeavesRows version to rows.now (state S.Store conn.old)
        (state S.Store conn.new) result }
    ensures write_error { IfErr result (λ fault. fault ≡ StoreFault.Memory → conn.new ≡ conn.old) }
    // A stop leaves what it left before, or, only where the later tables could be made, the migrated ones.
    ensures survives { Survives (state S.Store conn.old) (state S.Store conn.new)
        (IsMigratedBy version (to - version) rows.now.meta.position
        (edges_from version rows.now.movements.items) (state S.Store conn.old)) }
{
    match edges_from(alloc, version, rows.movements.as_slice()) {
        Ok(edges) => migrate_by(
            conn,
            version,
            to - version,
            &rows.meta.position,
            edges.as_slice(),
        ),
        Err(fault) => Err(fault),
    }
}
