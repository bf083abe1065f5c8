//! Tables of each schema, made by `create` and by a desk, are migrated to each later one: at once, by a step, and over files that stop.
use crate::commands::first_commands;
use crate::stores::{
    FusedStore, InMemory, closed, desk_over, files_of, in_memory, opened, rows_of, run_ten,
    tables_of,
};
use plant_base::NEWEST_SCHEMA;
use plant_desk::{Keeper, Reply};
use plant_migrate::{RaiseFault, raise};
use plant_tables::create;
use sqlite::{Alter, Connection};
use sqlite_disk::Crash;
use std::alloc::{AllocGlobal, Global};
use std::process::Abort;
use std::test::Fail;

/// No migration has so many calls of a file.
const FAR: u64 = 5000;

/// No stop of either file.
const ALL: [u64; 2] = [u64::MAX, u64::MAX];

/// What takes tables of the newest schema back to the third, those to the second, and those to the first.
const LOWER: [&str; 3] = [
    "DROP INDEX definition_by_class; DROP INDEX job_by_state; DROP INDEX batch_by_closed; DROP INDEX lot_by_def;
    DROP INDEX recipe_by_state; DROP INDEX movement_by_lot2; DROP INDEX job_by_due; DROP INDEX receipt_by_seq;
    DROP INDEX sublot_by_stock; DROP TABLE mark; DROP TABLE recall; UPDATE meta SET schema = 3",
    "DROP TABLE receipt; UPDATE meta SET schema = 2",
    "DROP INDEX batch_event_by_batch; DROP INDEX movement_by_lot; DROP INDEX movement_by_batch; DROP TABLE edge;
    UPDATE meta SET schema = 1",
];

/// The tables of ten commands in this schema.
fn lowered<S: Alter + Drop>(
    rt: &(impl Abort + AllocGlobal),
    connection: Connection<S>,
    schema: u64,
) -> Result<Connection<S>, Fail> {
    let mut lower = run_ten(rt, connection)?.close();
    for (statements, to) in LOWER.iter().zip([3, 2, 1]) {
        if schema <= to {
            lower.execute_batch(statements)?;
        }
    }
    Ok(lower)
}

/// Migrates the tables to this schema.
fn migrated<S: Alter>(
    alloc: Global,
    connection: &mut Connection<S>,
    to: u64,
) -> Result<Result<(), RaiseFault>, Fail> {
    if connection.is_autocommit() && to <= NEWEST_SCHEMA {
        Ok(raise(alloc, connection, to))
    } else {
        Err(Fail::from("a transaction is open"))
    }
}

/// Checks the rows of all tables but meta, which has this schema.
fn check_tables<S: Alter>(
    rt: &(impl Abort + AllocGlobal),
    connection: &mut Connection<S>,
    schema: u64,
    wanted: &str,
) -> Result<(), Fail> {
    let text = tables_of(rt.alloc(), connection, schema)?;
    assert_eq!(rt; text.as_str(), wanted);
    Ok(())
}

#[test]
fn first_schema_is_migrated_to_the_second_by_one_edge(rt: HostRuntime) -> Result<(), Fail> {
    let mut connection = lowered(&rt, in_memory(rt.alloc())?, 1)?;
    let before = tables_of(rt.alloc(), &mut connection, 1)?;
    assert!(rt; connection.query_all("SELECT * FROM edge", &[]).is_err());
    assert!(rt; migrated(rt.alloc(), &mut connection, 2)? == Ok(()));
    assert_eq!(rt;
        rows_of(rt.alloc(), &mut connection, "edge")?.as_str(),
        "edge|1|F-1|B-1\n"
    );
    assert_eq!(rt;
        rows_of(rt.alloc(), &mut connection, "meta")?.as_str(),
        "meta|1|2|10|0\n"
    );
    connection.execute_batch("UPDATE meta SET schema = 1")?;
    check_tables(&rt, &mut connection, 1, before.as_str())
}

#[test]
fn each_older_schema_is_migrated_to_the_newest_tables(rt: HostRuntime) -> Result<(), Fail> {
    let mut newest = run_ten(&rt, in_memory(rt.alloc())?)?.close();
    let wanted = tables_of(rt.alloc(), &mut newest, NEWEST_SCHEMA)?;
    for schema in 1..NEWEST_SCHEMA {
        let mut connection = lowered(&rt, in_memory(rt.alloc())?, schema)?;
        assert!(rt; migrated(rt.alloc(), &mut connection, NEWEST_SCHEMA)? == Ok(()));
        check_tables(&rt, &mut connection, NEWEST_SCHEMA, wanted.as_str())?;
        let mut by_steps = lowered(&rt, in_memory(rt.alloc())?, schema)?;
        for to in schema..=NEWEST_SCHEMA {
            assert!(rt; migrated(rt.alloc(), &mut by_steps, to)? == Ok(()));
        }
        check_tables(&rt, &mut by_steps, NEWEST_SCHEMA, wanted.as_str())?;
    }
    Ok(())
}

/// Makes the tables of a schema, in one transaction.
fn make_tables(connection: &mut Connection<sqlite::MemStore>, schema: u64) -> Result<(), Fail> {
    if !connection.is_autocommit() || schema < 1 || schema > NEWEST_SCHEMA {
        return Err(Fail::from("no schema, or a transaction is open"));
    }
    let mut tx = connection.transaction();
    create(&mut tx, schema)?;
    tx.commit()?;
    Ok(())
}

/// A store whose tables `create` made in this schema, with the row of meta of a desk that has accepted so many commands.
fn created(alloc: Global, schema: u64, seq: u64) -> Result<Connection<sqlite::MemStore>, Fail> {
    let mut connection = in_memory(alloc)?;
    make_tables(&mut connection, schema)?;
    let meta = format!(in alloc; "INSERT INTO meta VALUES (1, {schema}, {seq}, 0)")?;
    connection.execute_batch(meta.as_str())?;
    Ok(connection)
}

#[test]
fn created_tables_of_each_schema_are_migrated_and_adopted(rt: HostRuntime) -> Result<(), Fail> {
    for schema in 1..=NEWEST_SCHEMA {
        let mut connection = created(rt.alloc(), schema, 0)?;
        assert!(rt; migrated(rt.alloc(), &mut connection, NEWEST_SCHEMA)? == Ok(()));
        check_tables(&rt, &mut connection, NEWEST_SCHEMA, "meta|1|4|0|0\n")?;
        let mut desk = run_ten(&rt, connection)?;
        assert!(rt; desk.verify() == Ok(None));
    }
    Ok(())
}

#[test]
fn tables_of_millions_of_commands_are_migrated_and_go_on(rt: HostRuntime) -> Result<(), Fail> {
    let commands = first_commands(rt.alloc(), 1)?;
    for schema in 1..=NEWEST_SCHEMA {
        let mut connection = created(rt.alloc(), schema, 5_000_000)?;
        assert!(rt; migrated(rt.alloc(), &mut connection, NEWEST_SCHEMA)? == Ok(()));
        check_tables(&rt, &mut connection, NEWEST_SCHEMA, "meta|1|4|5000000|0\n")?;
        let report = desk_over(rt.alloc(), connection)?.run(&commands);
        assert!(rt; report.replies.as_slice() == [Reply::Accepted(5_000_001)].as_slice());
    }
    Ok(())
}

#[test]
fn migration_to_a_lower_schema_changes_nothing(rt: HostRuntime) -> Result<(), Fail> {
    let mut connection = run_ten(&rt, in_memory(rt.alloc())?)?.close();
    let before = tables_of(rt.alloc(), &mut connection, NEWEST_SCHEMA)?;
    for to in 1..=NEWEST_SCHEMA {
        assert!(rt; migrated(rt.alloc(), &mut connection, to)? == Ok(()));
    }
    check_tables(&rt, &mut connection, NEWEST_SCHEMA, before.as_str())
}

#[test]
fn tables_of_a_newer_schema_are_refused_with_its_number(rt: HostRuntime) -> Result<(), Fail> {
    let mut connection = run_ten(&rt, in_memory(rt.alloc())?)?.close();
    connection.execute_batch("UPDATE meta SET schema = 99")?;
    let before = tables_of(rt.alloc(), &mut connection, NEWEST_SCHEMA)?;
    for to in 1..=NEWEST_SCHEMA {
        assert!(rt; migrated(rt.alloc(), &mut connection, to)? == Err(RaiseFault::Newer(99)));
    }
    check_tables(&rt, &mut connection, NEWEST_SCHEMA, before.as_str())
}

#[test]
fn store_without_tables_is_not_migrated(rt: HostRuntime) -> Result<(), Fail> {
    let mut connection = in_memory(rt.alloc())?;
    assert!(rt; migrated(rt.alloc(), &mut connection, NEWEST_SCHEMA)? == Err(RaiseFault::Store));
    Ok(())
}

/// The bytes of the log and of the database file.
#[derive(Drop)]
struct Image {
    log: Vec<u8>,
    db: Vec<u8>,
}

impl Image {
    /// All that was written, synced or not.
    fn of(alloc: Global, files: &InMemory) -> Result<Image, Fail> {
        Ok(Image {
            log: Vec::from_slice(alloc, files.log.inner().bytes())?,
            db: Vec::from_slice(alloc, files.db.inner().bytes())?,
        })
    }

    /// The files, which stop after so many calls.
    fn files(&self, alloc: Global, calls: [u64; 2]) -> Result<InMemory, Fail> {
        files_of(alloc, &self.log, &self.db, calls)
    }
}

/// A migration by one version: the files before it, and the rows of all tables before and after it.
#[derive(Drop)]
struct MigrationCase {
    image: Image,
    to: u64,
    before: String,
    after: String,
}

/// The files of ten commands, with their tables in this schema.
fn image_of(rt: &(impl Abort + AllocGlobal), schema: u64) -> Result<Image, Fail> {
    let connection = reopened(files_of(rt.alloc(), &[], &[], ALL)?, rt.alloc())?;
    Image::of(rt.alloc(), &closed(lowered(rt, connection, schema)?))
}

/// A connection to files that don't stop.
fn reopened(files: InMemory, alloc: Global) -> Result<Connection<FusedStore>, Fail> {
    opened(alloc, files).map_err(|_files| Fail::from("the files don't open"))
}

/// The rows of the tables in these files, and their schema.
fn text_in(alloc: Global, files: InMemory, schema: u64) -> Result<String, Fail> {
    tables_of(alloc, &mut reopened(files, alloc)?, schema)
}

fn migrate_to(rt: &(impl Abort + AllocGlobal), to: u64) -> Result<MigrationCase, Fail> {
    let from = to.saturating_sub(1);
    let image = image_of(rt, from)?;
    let before = text_in(rt.alloc(), image.files(rt.alloc(), ALL)?, from)?;
    let higher = image_of(rt, to)?;
    let after = text_in(rt.alloc(), higher.files(rt.alloc(), ALL)?, to)?;
    Ok(MigrationCase {
        image,
        to,
        before,
        after,
    })
}

/// Migrates files that stop after so many calls: whether it was answered Ok, and the files as they were left.
fn migrated_within(
    rt: &(impl Abort + AllocGlobal),
    case: &MigrationCase,
    calls: [u64; 2],
) -> Result<(bool, InMemory), Fail> {
    match opened(rt.alloc(), case.image.files(rt.alloc(), calls)?) {
        Ok(mut connection) => {
            let answer = migrated(rt.alloc(), &mut connection, case.to)?;
            assert!(rt; answer == Ok(()) || answer == Err(RaiseFault::Store));
            Ok((answer.is_ok(), closed(connection)))
        }
        Err(files) => Ok((false, files)),
    }
}

/// The schema that table meta says.
fn schema_in<S: Alter>(connection: &mut Connection<S>) -> Result<i64, Fail> {
    Ok(
        connection
            .query_row("SELECT schema FROM meta", &[])?
            .get::<i64>(0)?,
    )
}

/// Checks what files hold: the rows after the migration, or those before it where it wasn't answered.
fn check_left(
    rt: &(impl Abort + AllocGlobal),
    case: &MigrationCase,
    files: InMemory,
    answered: bool,
) -> Result<(), Fail> {
    let mut connection = reopened(files, rt.alloc())?;
    if u64::try_from(schema_in(&mut connection)?).unwrap_or(0) == case.to {
        return check_tables(rt, &mut connection, case.to, case.after.as_str());
    }
    assert!(rt; !answered);
    check_tables(
        rt,
        &mut connection,
        case.to.saturating_sub(1),
        case.before.as_str(),
    )
}

/// Whether the migration was answered within so many calls. What is left is checked with all that was written, and with what was synced alone.
fn is_migrated_within(
    rt: &(impl Abort + AllocGlobal),
    case: &MigrationCase,
    calls: [u64; 2],
) -> Result<bool, Fail> {
    let (answered, mut files) = migrated_within(rt, case, calls)?;
    let written = Image::of(rt.alloc(), &files)?.files(rt.alloc(), ALL)?;
    check_left(rt, case, written, answered)?;
    files.log.crash();
    files.db.crash();
    check_left(rt, case, files, answered)?;
    Ok(answered)
}

/// How many calls of a file, of the log or else of the database file, a migration needs to be answered: it is stopped after each number below.
fn calls_needed(
    rt: &(impl Abort + AllocGlobal),
    case: &MigrationCase,
    is_log: bool,
) -> Result<u64, Fail> {
    for most in 0..FAR {
        let calls = if is_log {
            [most, u64::MAX]
        } else {
            [u64::MAX, most]
        };
        if is_migrated_within(rt, case, calls)? {
            return Ok(most);
        }
    }
    Err(Fail::from("no migration ended without a stop"))
}

/// Stops the log after each number of calls, up to the first migrate that is answered; then the database file.
fn check_stops(rt: &(impl Abort + AllocGlobal), to: u64) -> Result<(), Fail> {
    let case = migrate_to(rt, to)?;
    assert!(rt; calls_needed(rt, &case, true)? > 0);
    assert!(rt; calls_needed(rt, &case, false)? > 0);
    Ok(())
}

#[test]
fn stopped_migration_to_the_second_schema_leaves_either_tables(
    rt: HostRuntime,
) -> Result<(), Fail> {
    check_stops(&rt, 2)
}

#[test]
fn stopped_migration_to_the_third_schema_leaves_either_tables(rt: HostRuntime) -> Result<(), Fail> {
    check_stops(&rt, 3)
}

#[test]
fn stopped_migration_to_the_fourth_schema_leaves_either_tables(
    rt: HostRuntime,
) -> Result<(), Fail> {
    check_stops(&rt, 4)
}
