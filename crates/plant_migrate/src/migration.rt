//! The migration of whatever tables a store holds.

ghost use Rattle.std.specs.Prelude.{◌≡◌, ◌≤◌, ◌<◌, false};
ghost use Rattle.sqlite.specs.State.{HasCleanDisk, Survives};
ghost use Rattle.sqlite.specs.Held.{state};
ghost use Rattle.plant_base.specs.{newest_schema};
ghost use Rattle.plant_migrate.specs.MigrationContracts.{FailureLeavesFound, FailureLeavesTables, Migrates};
ghost use Rattle.plant_migrate.specs.MigrationContracts.{MigratesFound, MigratesNoNewer, MigratesKnownVersion};
ghost use Rattle.plant_migrate.specs.MigrationContracts.{RefusesNewer, WritesAtStore, WritesNothing};
ghost use Rattle.plant_migrate.specs.MigrationContracts.{raise_fault};
ghost use Rattle.plant_migrate.specs.FailureLeaves.{IsMigratedFrom, IsMigratedTo};

use crate::rows::migrate_rows;
use crate::steps::migrate_by;
use plant_base::NEWEST_SCHEMA;
use plant_tables::{FoundTables, Loaded, found, only_meta, read_meta, rows_of};
use sql_tables::StoreFault;
use sqlite::{Alter, Connection};
use std::alloc::Global;

/// Why tables weren't migrated.
#[derive(Clone, Copy, Debug, PartialEq, Eq, thiserror::Error)]
pub enum RaiseFault {
    /// The store failed, or what it contains isn't tables of a desk that can be migrated.
    #[error("the store failed")]
    Store,
    /// There was no memory.
    #[error("out of memory")]
    Memory,
    /// The tables are of a schema that isn't known yet.
    #[error("tables of schema {0}")]
    Newer(i64),
}

/// The fault of a migration that a fault of its store is.
fn fault_of(fault: StoreFault) -> RaiseFault
    ensures { result ≡ raise_fault fault }
{
    match fault {
        StoreFault::Store => RaiseFault::Store,
        StoreFault::Memory => RaiseFault::Memory,
    }
}

/// Reads the rows of tables of the first schema, and migrates the tables. Store where they aren't declared as their
/// definitions say, where a value breaks its rule, where the later tables can't be made, and where the store fails; Memory
/// where there is none, and then nothing was written.
fn migrate_first<S: Alter>(
    alloc: Global,
    conn: &mut Connection<S>,
    to: u64,
) -> Result<(), StoreFault>
    requires mode { conn.old.in_transaction ≡ false }
    requires below { 1 < to }
    requires newest { to ≤ newest_schema }
    ensures mode { conn.new.in_transaction ≡ false }
    ensures migrated { Migrates 1 to (state S.Store conn.old) (state S.Store conn.new) result }
    ensures after_failure { FailureLeavesTables 1 to (state S.Store conn.old) (state S.Store conn.new) result }
    ensures write_error { WritesNothing (state S.Store conn.old) (state S.Store conn.new) result }
    ensures crash { Survives (state S.Store conn.old) (state S.Store conn.new)
        (IsMigratedFrom 1 to (state S.Store conn.old)) }
{
    let loaded = match Loaded::read(alloc, conn, 1) {
        Ok(Some(loaded)) => loaded,
        Ok(None) => return Err(StoreFault::Store),
        Err(fault) => return Err(fault),
    };
    match rows_of(alloc, &loaded) {
        Ok(Some(rows)) => migrate_rows(alloc, conn, 1, to, &rows),
        Ok(None) => Err(StoreFault::Store),
        Err(_) => Err(StoreFault::Memory),
    }
}

/// Reads table meta of tables of a schema that keeps edges, and migrates the tables. Store where it isn't declared as its
/// definition says, hasn't one row or has a value that breaks its rule, where the later tables can't be made, and where the store
/// fails; Memory where there is none, and then nothing was written.
fn migrate_later<S: Alter>(
    alloc: Global,
    conn: &mut Connection<S>,
    version: u64,
    to: u64,
) -> Result<(), StoreFault>
    requires mode { conn.old.in_transaction ≡ false }
    requires later { 1 < version }
    requires below { version < to }
    requires newest { to ≤ newest_schema }
    ensures mode { conn.new.in_transaction ≡ false }
    ensures migrated { Migrates version to (state S.Store conn.old) (state S.Store conn.new) result }
    ensures after_failure { FailureLeavesTables version to (state S.Store conn.old) (state S.Store conn.new) result }
    ensures write_error { WritesNothing (state S.Store conn.old) (state S.Store conn.new) result }
    ensures crash { Survives (state S.Store conn.old) (state S.Store conn.new)
        (IsMigratedFrom version to (state S.Store conn.old)) }
{
    let stored = match read_meta(alloc, conn) {
        Ok(stored) => stored,
        Err(fault) => return Err(fault),
    };
    match only_meta(stored.as_slice()) {
        Some(meta) => migrate_by(conn, version, to - version, &meta.position, &[]),
        None => Err(StoreFault::Store),
    }
}

/// Migrates tables of this version, which table meta has, to a later one.
fn migrate_from<S: Alter>(
    alloc: Global,
    conn: &mut Connection<S>,
    version: u64,
    to: u64,
) -> Result<(), StoreFault>
    requires mode { conn.old.in_transaction ≡ false }
    requires known { 1 ≤ version }
    requires below { version < to }
    requires newest { to ≤ newest_schema }
    ensures mode { conn.new.in_transaction ≡ false }
    ensures clean { HasCleanDisk (state S.Store conn.new) → HasCleanDisk (state S.Store conn.old) }
    ensures migrated { Migrates version to (state S.Store conn.old) (state S.Store conn.new) result }
    ensures after_failure { FailureLeavesTables version to (state S.Store conn.old) (state S.Store conn.new) result }
    ensures write_error { WritesNothing (state S.Store conn.old) (state S.Store conn.new) result }
    // A stop leaves what it left before, or, only where the rows that were read obey the rules of values and the later tables
    // could be made, the tables migrated from those rows.
    ensures crash { Survives (state S.Store conn.old) (state S.Store conn.new)
        (IsMigratedFrom version to (state S.Store conn.old)) }
{
    if version == 1 {
        migrate_first(alloc, conn, to)
    } else {
        migrate_later(alloc, conn, version, to)
    }
}

/// Migrates the tables that a store holds to this schema, one version after the other, each in one transaction: nothing is
/// done where theirs isn't below it. `Newer` where they are of a schema above the newest, and then nothing was written;
/// Store where there are none, where table meta has no version, where a value that is read breaks its rule, and
/// where the store fails, and then the versions that were committed stay; Memory where there is none, and then nothing was
/// written.
pub fn raise<S: Alter>(alloc: Global, conn: &mut Connection<S>, to: u64) -> Result<(), RaiseFault>
    requires mode { conn.old.in_transaction ≡ false }
    requires known { to ≤ newest_schema }
    ensures mode { conn.new.in_transaction ≡ false }
    ensures migrated { MigratesFound to (state S.Store conn.old) (state S.Store conn.new) result }
    ensures after_failure { FailureLeavesFound to (state S.Store conn.old) (state S.Store conn.new) result }
    // Of whatever store: a stop leaves what it left before, and nothing else at a fault but Store; else also migrated tables,
    // only where table meta has an older schema than is asked for, the rows that are read obey the rules of values and
    // the later tables could be made.
    ensures write_error { WritesAtStore (state S.Store conn.old) (state S.Store conn.new) result }
    ensures crash { Survives (state S.Store conn.old) (state S.Store conn.new)
        (IsMigratedTo to (state S.Store conn.old)) }
    ensures reported { MigratesKnownVersion (state S.Store conn.old) (state S.Store conn.new) result }
    ensures newer { RefusesNewer (state S.Store conn.old) (state S.Store conn.new) result }
    ensures not_newer { MigratesNoNewer (state S.Store conn.old) (state S.Store conn.new) result }
{
    let version = match found(alloc, conn) {
        Ok(FoundTables::Version(version)) => version,
        Ok(_) => return Err(RaiseFault::Store),
        Err(fault) => return Err(fault_of(fault)),
    };
    if version > NEWEST_SCHEMA as i64 {
        return Err(RaiseFault::Newer(version));
    }
    if version >= to as i64 {
        return Ok(());
    }
    // Table meta has none.
    if version < 1 {
        return Err(RaiseFault::Store);
    }
    match migrate_from(alloc, conn, version as u64, to) {
        Ok(()) => Ok(()),
        Err(fault) => Err(fault_of(fault)),
    }
}
