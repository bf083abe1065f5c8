//! What an opened store holds of a desk.
ghost use Rattle.std.specs.Prelude.{◌≡◌, IfOk, IfSome};
ghost use Rattle.sqlite.specs.Held.{state};
ghost use Rattle.sqlite.specs.State.{HasCleanDisk, Survives};
ghost use Rattle.sql_tables.specs.{Keeps};
ghost use Rattle.plant_check_rules.specs.{IsDamaged};
ghost use Rattle.file_reports.specs.FileReports.{IsHeldBy, IsHeldIn, IsReadAs, IsReadAt};
ghost use Rattle.file_reports.specs.FileReports.{IsFileReportOf, IsReportOf, ReportsDesk};
ghost use Rattle.file_reports.specs.FileReports.{first_reported, summary_of};

use crate::barred::{DeskIndex, barred_index};
use crate::bound::Binder;
use plant_base::{Meta, NEWEST_SCHEMA};
use plant_check::{Findings, test_loaded};
use plant_tables::{FoundTables, Loaded, found, only_meta};
use sql_tables::StoreFault;
use sqlite::{Alter, Connection};
use std::alloc::{AllocError, Global};

/// What a store holds of a desk's tables.
#[derive(Drop)]
pub(crate) enum Held {
    /// None of them; and the first index that can't be made with them, where there is one.
    Nothing(Option<DeskIndex>),
    /// Those of this schema, which is above the newest.
    Newer(u64),
    /// Some, but table meta has no schema, or not all of its tables are declared as their definitions say, or one of a
    /// later schema exists.
    Lacking,
    /// Those of a schema, with all their rows; and the first index that can't be made as they are migrated, where there is one.
    Tables(Loaded, Option<DeskIndex>),
}

/// The desk's position, and how much it holds.
#[derive(Clone, Copy, Debug, PartialEq, Eq)]
pub struct FileSummary {
    /// The schema of its tables.
    pub schema: u64,
    /// How many commands were accepted.
    pub seq: u64,
    /// The moment of the last of them, in seconds since 1970.
    pub at: u64,
    /// How many orders it has.
    pub orders: usize,
    /// How many batches it has.
    pub batches: usize,
    /// How many lots it has.
    pub lots: usize,
    /// How many movements it has.
    pub movements: usize,
}

/// The report on a store.
#[derive(Drop)]
pub enum FileReport {
    /// It holds no desk; and this index of one can't be made, where there is such.
    Nothing(Option<DeskIndex>),
    /// It holds one in tables of this schema, which is above the newest.
    Newer(u64),
    /// It holds some of a desk's tables: not all are there that its schema asks for, or they aren't declared as their
    /// definitions say; and why one isn't, where that is known.
    Lacking(Option<Binder>),
    /// It holds a desk, which breaks these rules; and this index can't be made as it is migrated, where there is such.
    Desk {
        /// Its position, and how much it holds.
        summary: FileSummary,
        /// The first index that can't be made as it is migrated, where there is one.
        barred: Option<DeskIndex>,
        /// Which rules its tables break.
        findings: Findings,
    },
}

/// What a store holds of a desk's tables. Store where the store fails, Memory where there is none. Nothing is changed.
fn held_in<S: Alter>(alloc: Global, connection: &mut Connection<S>) -> Result<Held, StoreFault>
    ensures held { HasCleanDisk (state S.Store connection.new)
        → IfOk result (IsHeldIn (state S.Store connection.old).now) }
    ensures kept { HasCleanDisk (state S.Store connection.new)
        → Keeps (state S.Store connection.old) (state S.Store connection.new) }
    ensures crash { Survives (state S.Store connection.old) (state S.Store connection.new) (λ _. ⊥) }
{
    match found(alloc, connection) {
        Ok(tables) => held_by(alloc, connection, tables),
        Err(fault) => Err(fault),
    }
}

/// What a store holds in which these tables were found. Store where the store fails, Memory where there is none. Nothing is
/// changed.
fn held_by<S: Alter>(
    alloc: Global,
    connection: &mut Connection<S>,
    tables: FoundTables,
) -> Result<Held, StoreFault>
    ensures held { HasCleanDisk (state S.Store connection.new)
        → IfOk result (IsHeldBy (state S.Store connection.old).now tables) }
    ensures kept { HasCleanDisk (state S.Store connection.new)
        → Keeps (state S.Store connection.old) (state S.Store connection.new) }
    ensures crash { Survives (state S.Store connection.old) (state S.Store connection.new) (λ _. ⊥) }
{
    match tables {
        FoundTables::Nothing => Ok(Held::Nothing(barred_index(connection.schema(), 0))),
        FoundTables::NoMeta => Ok(Held::Lacking),
        FoundTables::Version(version) => read_version(alloc, connection, version),
    }
}

/// What a store holds whose table meta has this version. Store where the version is below 0, and where the store fails;
/// Memory where there is none. Nothing is changed.
fn read_version<S: Alter>(
    alloc: Global,
    connection: &mut Connection<S>,
    version: i64,
) -> Result<Held, StoreFault>
    ensures held { HasCleanDisk (state S.Store connection.new)
        → IfOk result (IsReadAs (state S.Store connection.old).now version) }
    ensures kept { HasCleanDisk (state S.Store connection.new)
        → Keeps (state S.Store connection.old) (state S.Store connection.new) }
    ensures crash { Survives (state S.Store connection.old) (state S.Store connection.new) (λ _. ⊥) }
{
    match u64::try_from(version) {
        Ok(schema) => read_schema(alloc, connection, schema),
        Err(_) => Err(StoreFault::Store),
    }
}

/// What a store holds whose table meta has this schema. Store where the store fails, Memory where there is none. Nothing is
/// changed.
fn read_schema<S: Alter>(
    alloc: Global,
    connection: &mut Connection<S>,
    schema: u64,
) -> Result<Held, StoreFault>
    ensures held { HasCleanDisk (state S.Store connection.new)
        → IfOk result (IsReadAt (state S.Store connection.old).now schema) }
    ensures kept { HasCleanDisk (state S.Store connection.new)
        → Keeps (state S.Store connection.old) (state S.Store connection.new) }
    ensures crash { Survives (state S.Store connection.old) (state S.Store connection.new) (λ _. ⊥) }
{
    if schema > NEWEST_SCHEMA {
        return Ok(Held::Newer(schema));
    }
    let barred = barred_index(connection.schema(), schema);
    match Loaded::read(alloc, connection, schema)? {
        None => Ok(Held::Lacking),
        Some(loaded) => Ok(Held::Tables(loaded, barred)),
    }
}

/// The position of the desk of these rows, by table meta, and how many rows it has of some tables.
fn summary_by(meta: &Option<Meta>, loaded: &Loaded) -> FileSummary
    ensures { result ≡ summary_of meta.now loaded.now }
{
    let orders = loaded.rows(5).len();
    let batches = loaded.rows(6).len();
    let lots = loaded.rows(9).len();
    let movements = loaded.rows(11).len();
    FileSummary {
        schema: meta.map_or(0, |meta| meta.schema),
        seq: meta.map_or(0, |meta| meta.position.seq),
        at: meta.map_or(0, |meta| meta.position.at.get()),
        orders,
        batches,
        lots,
        movements,
    }
}

/// The report on rows that were loaded. The only error is that memory was refused.
fn report_on_rows(
    alloc: Global,
    loaded: &Loaded,
    barred: Option<DeskIndex>,
) -> Result<FileReport, AllocError>
    ensures { IfOk result (λ file_report. ReportsDesk loaded.now barred file_report) }
{
    let meta = only_meta(loaded.rows(0));
    let summary = summary_by(&meta, loaded);
    let findings = test_loaded(alloc, loaded)?;
    Ok(FileReport::Desk {
        summary,
        barred,
        findings,
    })
}

/// The report on a store that holds this. The only fault is that memory was refused.
fn file_report_of(alloc: Global, held: &Held) -> Result<FileReport, StoreFault>
    ensures { IfOk result (IsReportOf held.now) }
{
    match held {
        Held::Nothing(barred) => Ok(FileReport::Nothing(*barred)),
        Held::Newer(schema) => Ok(FileReport::Newer(*schema)),
        Held::Lacking => Ok(FileReport::Lacking(None)),
        Held::Tables(loaded, barred) => match report_on_rows(alloc, loaded, *barred) {
            Ok(file_report) => Ok(file_report),
            Err(_) => Err(StoreFault::Memory),
        },
    }
}

/// The report on an opened store: what its tables are, the desk's position, and which rules it breaks. Store where the store
/// fails, Memory where there is none. Nothing is changed.
///
/// The first rule of the report is the one that the subcommand `verify` names (`refused` of `Desk::adopt`).
pub fn report_on_store<S: Alter>(
    alloc: Global,
    connection: &mut Connection<S>,
) -> Result<FileReport, StoreFault>
    ensures reported { HasCleanDisk (state S.Store connection.new)
        → IfOk result (IsFileReportOf (state S.Store connection.old).now) }
    ensures first { HasCleanDisk (state S.Store connection.new)
        → IfOk result (λ file_report. IfSome (first_reported file_report) (IsDamaged (state S.Store connection.old).now)) }
    ensures kept { HasCleanDisk (state S.Store connection.new)
        → Keeps (state S.Store connection.old) (state S.Store connection.new) }
    ensures crash { Survives (state S.Store connection.old) (state S.Store connection.new) (λ _. ⊥) }
{
    match held_in(alloc, connection) {
        Ok(held) => file_report_of(alloc, &held),
        Err(fault) => Err(fault),
    }
}
