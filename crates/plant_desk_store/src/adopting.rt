//! The adoption of a store.

ghost use Rattle.std.specs.Prelude.{◌≡◌, ◌≤◌, ◌<◌, false, IfOk, IfErr, MatchResult};
ghost use Rattle.sqlite.specs.Held.{state};
ghost use Rattle.plant_base.specs.{newest_schema};
ghost use Rattle.plant_desk_store.specs.Adopting.{BrokenBy};
ghost use Rattle.plant_desk_store.specs.CallContracts.{HasAdopted, HasRefused};
ghost use Rattle.plant_desk_store.specs.Faults as spec;
ghost use Rattle.plant_desk_store.specs.PrivateContracts.{HasMade, HasChecked, HasMigrated, HasTaken};
ghost use Rattle.plant_desk_store.specs.Checks.{PassesChecks};

use crate::check_error::{CheckError, check_desk};
use crate::digest::Digest;
use crate::stored::Desk;
use plant_base::NEWEST_SCHEMA;
use plant_check_rules::Rule;
use plant_migrate::migrate_rows;
use plant_tables::{DeskRows, FoundTables, Loaded, commit_opening, found};
use sql_tables::StoreFault;
use sqlite::{Alter, Connection};
use std::alloc::Global;

/// Why a store is no desk's.
#[derive(Clone, Copy, Debug, PartialEq, Eq, thiserror::Error)]
pub enum AdoptFault {
    /// The store failed.
    #[error("the store failed")]
    Store,
    /// The tables are of a schema that isn't known yet.
    #[error("tables of schema {0}")]
    Newer(u64),
    /// The tables break this rule, and none before it.
    #[error("the tables break rule {0:?}")]
    Damaged(Rule),
    /// There was no memory.
    #[error("out of memory")]
    Memory,
}

/// A store that wasn't adopted, and why.
#[derive(Drop)]
pub struct AdoptRefused<S: Alter> {
    /// The connection to the store, for its owner to close.
    pub connection: Connection<S>,
    /// Why the store wasn't adopted.
    pub fault: AdoptFault,
}

fn fault_of(fault: StoreFault) -> AdoptFault
    ensures { result ≡ spec.adopt_fault fault }
{
    match fault {
        StoreFault::Store => AdoptFault::Store,
        StoreFault::Memory => AdoptFault::Memory,
    }
}

/// The rows that an adoption reads. `Damaged`, of the first rule, where a table isn't declared as its definition says; Store
/// where the store failed; Memory where there was none.
fn rows_to_adopt(read: Result<Option<Loaded>, StoreFault>) -> Result<Loaded, AdoptFault>
    ensures { result ≡ spec.rows_to_adopt read }
{
    match read {
        Ok(Some(loaded)) => Ok(loaded),
        Ok(None) => Err(AdoptFault::Damaged(Rule::Tables)),
        Err(fault) => Err(fault_of(fault)),
    }
}

impl<S: Alter> Desk<S> {
    /// Adopts a store in which no transaction is open. One that has none of the desk's tables gets them, with the
    /// opening state, in one transaction; valid tables of an older schema are migrated to the newest, one schema after the
    /// other, each in a transaction of its own; foreign tables aren't read and stay.
    /// What a stop leaves is then that state, and after a fault what it left before, the opening state, or the valid state that
    /// was there, in its schema or a later one.
    ///
    /// - `Newer`: the tables are of a schema above the newest. Nothing is changed.
    /// - `Damaged`: some of the tables are there, of no schema above the newest, and they break this rule, and none before
    ///   it. Nothing is changed.
    /// - `Memory`: nothing is changed.
    /// - `Store`: the tables are as they were, or, where there were none, made with the opening state, or, where they were
    ///   valid and of an older schema, migrated, to the newest or to one between.
    pub fn adopt(alloc: Global, mut connection: Connection<S>) -> Result<Desk<S>, AdoptRefused<S>>
        requires { (state S.Store connection).in_transaction ≡ false }
        ensures adopted { IfOk result (λ desk. HasAdopted (state S.Store connection)
            (state S.Store desk.connection)) }
        ensures open { IfOk result (λ desk. desk.is_shut ≡ false) }
        ensures refused { IfErr result (λ refused. HasRefused refused.fault (state S.Store connection)
            (state S.Store refused.connection)) }
    {
        let mut digest = Digest::none();
        match adopt_on(alloc, &mut connection, &mut digest) {
            Ok(()) => Ok(Desk {
                alloc,
                connection,
                is_shut: false,
                digest,
            }),
            Err(fault) => Err(AdoptRefused { connection, fault }),
        }
    }
}

/// Makes the desk's tables where the store has none of them, else tests those that are there, adds their receipts to the digest, and
/// migrates older ones.
fn adopt_on<S: Alter>(
    alloc: Global,
    connection: &mut Connection<S>,
    digest: &mut Digest,
) -> Result<(), AdoptFault>
    requires { (state S.Store connection.old).in_transaction ≡ false }
    ensures { MatchResult result (λ _. HasAdopted (state S.Store connection.old)
        (state S.Store connection.new)) (λ fault. HasRefused fault (state S.Store connection.old)
        (state S.Store connection.new)) }
{
    match schema_found(found(alloc, connection))? {
        None => make_opening(connection),
        Some(schema) => adopt_tables(alloc, connection, schema, digest),
    }
}

/// The schema of the tables that were found, `None` where there are none of the desk's. `Damaged`, of the first rule, where
/// table meta has no version; `Newer` where it has one above the newest; Store where the store failed; Memory where
/// there was none.
fn schema_found(found: Result<FoundTables, StoreFault>) -> Result<Option<u64>, AdoptFault>
    ensures { result ≡ spec.schema_found found }
{
    match found {
        Ok(FoundTables::Nothing) => Ok(None),
        Ok(FoundTables::NoMeta) => Err(AdoptFault::Damaged(Rule::Tables)),
        Ok(FoundTables::Version(version)) => schema_of_version(version),
        Err(fault) => Err(fault_of(fault)),
    }
}

/// The schema of a version, where it is known; `Newer` where it is above the newest. Of a number that meta can't have, as
/// none is below 1, this is 0, which is no schema's.
fn schema_of_version(version: i64) -> Result<Option<u64>, AdoptFault>
    ensures { result ≡ spec.schema_of_version version }
{
    let schema = u64::try_from(version).unwrap_or(0);
    if schema > NEWEST_SCHEMA {
        return Err(AdoptFault::Newer(schema));
    }
    Ok(Some(schema))
}

/// Tests the tables of a schema, which are there; where they are valid, their receipts are added to the digest, and they are migrated where the
/// schema isn't the newest.
fn adopt_tables<S: Alter>(
    alloc: Global,
    connection: &mut Connection<S>,
    schema: u64,
    digest: &mut Digest,
) -> Result<(), AdoptFault>
    requires { (state S.Store connection.old).in_transaction ≡ false }
    ensures { HasTaken schema (state S.Store connection.old) (state S.Store connection.new) result }
{
    let rows = check_tables(alloc, connection, schema)?;
    digest.add_receipts(rows.receipts.as_slice());
    if schema < NEWEST_SCHEMA {
        migrate_tables(alloc, connection, schema, &rows)
    } else {
        Ok(())
    }
}

/// Makes the desk's tables, with the opening state.
fn make_opening<S: Alter>(connection: &mut Connection<S>) -> Result<(), AdoptFault>
    requires { (state S.Store connection.old).in_transaction ≡ false }
    ensures { HasMade (state S.Store connection.old) (state S.Store connection.new) result }
{
    match commit_opening(connection) {
        Ok(()) => Ok(()),
        Err(_) => Err(AdoptFault::Store),
    }
}

/// Reads all tables of a schema, and tests whether they are those of a valid state. Nothing is changed.
fn check_tables<S: Alter>(
    alloc: Global,
    connection: &mut Connection<S>,
    schema: u64,
) -> Result<DeskRows, AdoptFault>
    ensures { HasChecked schema (state S.Store connection.old) (state S.Store connection.new) result }
{
    let loaded = rows_to_adopt(Loaded::read(alloc, connection, schema))?;
    check_loaded(alloc, loaded, schema)
}

/// Tests whether the rows that were loaded of the tables of a schema are those of a valid state.
fn check_loaded(alloc: Global, loaded: Loaded, schema: u64) -> Result<DeskRows, AdoptFault>
    ensures fit { IfOk result (PassesChecks loaded schema) }
    ensures broken { IfErr result (BrokenBy loaded) }
{
    match check_desk(alloc, loaded, schema) {
        Ok(rows) => Ok(rows),
        Err(CheckError::Broken(rule)) => Err(AdoptFault::Damaged(rule)),
        // The version was found to be this one.
        Err(CheckError::Schema) => Err(AdoptFault::Store),
        Err(CheckError::Memory) => Err(AdoptFault::Memory),
    }
}

/// Migrates valid tables of an older schema, whose rows these are, to the newest, one schema after the other.
fn migrate_tables<S: Alter>(
    alloc: Global,
    connection: &mut Connection<S>,
    schema: u64,
    rows: &DeskRows,
) -> Result<(), AdoptFault>
    requires rest { (state S.Store connection.old).in_transaction ≡ false }
    requires numbered { 1 ≤ schema }
    requires older { schema < newest_schema }
    ensures { HasMigrated schema rows.now (state S.Store connection.old) (state S.Store connection.new)
        result }
{
    match migrate_rows(alloc, connection, schema, NEWEST_SCHEMA, rows) {
        Ok(()) => Ok(()),
        Err(fault) => Err(fault_of(fault)),
    }
}
