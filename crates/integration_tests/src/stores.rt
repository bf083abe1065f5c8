//! Stores of both kinds, desks over them, and the rows of their tables as text.
use crate::commands::first_commands;
use plant_base::Items;
use plant_desk::Reply;
use plant_desk_store::Desk;
use sqlite::types::ValueRef;
use sqlite::{Alter, Connection, FileStore, Files, MemStore, Options};
use sqlite_disk::{Disk, Fuse, Memory};
use std::alloc::{AllocGlobal, Global};
use std::process::Abort;
use std::test::Fail;

/// A store over a log and a database file in memory, each of which stops after so many calls.
pub type FusedStore = FileStore<Fuse<Memory>>;

/// The log and the database file.
pub type InMemory = Files<Fuse<Memory>>;

/// The tables of the newest schema in the order in which they are made.
const TABLES: [&str; 17] = [
    "meta",
    "class",
    "definition",
    "recipe",
    "recipe_line",
    "job",
    "batch",
    "control_line",
    "batch_event",
    "lot",
    "sublot",
    "movement",
    "hold",
    "edge",
    "receipt",
    "recall",
    "mark",
];

/// A new store in memory.
pub(crate) fn in_memory(alloc: Global) -> Result<Connection<MemStore>, Fail> {
    Ok(Connection::open_in_memory(alloc)?)
}

/// Files with these bytes, which stop after so many calls.
pub(crate) fn files_of(
    alloc: Global,
    log: &[u8],
    db: &[u8],
    calls: [u64; 2],
) -> Result<InMemory, Fail> {
    Ok(Files {
        log: Fuse::new(file_of(alloc, log)?, calls[0]),
        db: Fuse::new(file_of(alloc, db)?, calls[1]),
    })
}

fn file_of(alloc: Global, bytes: &[u8]) -> Result<Memory, Fail> {
    let mut memory = Memory::new(alloc);
    if !bytes.is_empty() {
        memory.write_at(0, bytes)?;
        memory.sync()?;
    }
    Ok(memory)
}

/// A connection to the files, or the files where they don't open.
pub(crate) fn opened(alloc: Global, files: InMemory) -> Result<Connection<FusedStore>, InMemory> {
    if !files.log.may_be_used() || !files.db.may_be_used() {
        return Err(files);
    }
    match Connection::open_files(alloc, files, Options::new(7)) {
        Ok(connection) => Ok(connection),
        Err((_, left)) => Err(left.into_files()),
    }
}

/// The files of a connection that is closed.
pub(crate) fn closed(connection: Connection<FusedStore>) -> InMemory {
    match connection.close_files() {
        Ok(files) => files,
        Err((_, store)) => store.close(),
    }
}

/// A desk over the store.
pub(crate) fn desk_over<S: Alter + Drop>(
    alloc: Global,
    connection: Connection<S>,
) -> Result<Desk<S>, Fail> {
    if !connection.is_autocommit() {
        return Err(Fail::from("a transaction is open"));
    }
    match Desk::adopt(alloc, connection) {
        Ok(desk) => Ok(desk),
        Err(_) => Err(Fail::from("the store is refused")),
    }
}

/// Runs the first ten commands: each is accepted in turn, and the run ends without a fault.
pub(crate) fn run_ten<S: Alter + Drop>(
    rt: &(impl Abort + AllocGlobal),
    connection: Connection<S>,
) -> Result<Desk<S>, Fail> {
    let mut desk = desk_over(rt.alloc(), connection)?;
    let report = desk.run(&first_commands(rt.alloc(), 10)?);
    assert!(rt; report.end.is_none());
    check_accepted(rt, &report.replies, 10);
    Ok(desk)
}

/// Checks that replies accept so many commands, from the first on.
fn check_accepted(rt: &impl Abort, replies: &Items<Reply>, count: u64) {
    assert_eq!(rt; replies.as_slice().len() as u64, count);
    for (reply, seq) in replies.as_slice().iter().zip(1..=count) {
        assert!(rt; *reply == Reply::Accepted(seq));
    }
}

fn push_value(text: &mut String, alloc: Global, value: ValueRef<'_>) -> Result<(), Fail> {
    match value {
        ValueRef::Text(bytes) => {
            for byte in bytes {
                text.push(char::from(*byte))?;
            }
        }
        ValueRef::Int(number) => text.push_str(format!(in alloc; "{number}")?.as_str())?,
        _ => text.push_str("NULL")?,
    }
    Ok(())
}

/// The rows of a table as text, in the order of their rowids: a line each, each value after a bar.
pub(crate) fn rows_of<S: Alter>(
    alloc: Global,
    connection: &mut Connection<S>,
    table: &str,
) -> Result<String, Fail> {
    let mut text = String::new(alloc);
    let query = format!(in alloc; "SELECT * FROM {table}")?;
    for row in connection.query_all(query.as_str(), &[])? {
        text.push_str(table)?;
        for at in 0..row.column_count() {
            text.push_str("|")?;
            push_value(&mut text, alloc, row.get_ref(at)?)?;
        }
        text.push_str("\n")?;
    }
    Ok(text)
}

/// How many tables a schema has.
pub(crate) fn tables_in(schema: u64) -> usize {
    match schema {
        1 => 13,
        2 => 14,
        3 => 15,
        _ => 17,
    }
}

/// The rows of all tables of a schema as text.
pub(crate) fn tables_of<S: Alter>(
    alloc: Global,
    connection: &mut Connection<S>,
    schema: u64,
) -> Result<String, Fail> {
    let mut text = String::new(alloc);
    for table in TABLES.iter().take(tables_in(schema)) {
        text.push_str(rows_of(alloc, connection, table)?.as_str())?;
    }
    Ok(text)
}
