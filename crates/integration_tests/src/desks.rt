//! A list of commands that a desk runs at once, a desk that a fault of its store has shut, and a row that no column holds.
use plant_base::{AddClass, Class, Command, Envelope, Id, Moment, Refusal, Sublot, Text};
use plant_desk::{DeskFault, Keeper, ListKeeper, Question, Reply, RunReport};
use plant_desk_store::Desk;
use plant_tables::{commit_changes, commit_opening};
use plant_view::RowChange;
use sql_tables::StoreFault;
use sqlite::{Connection, FileStore, Files, MemStore, Options};
use sqlite_disk::{Disk, Fuse, Memory};
use std::alloc::Global;
use std::process::Abort;
use std::test::Fail;

/// No adoption has so many calls of the log.
const FAR: u64 = 5000;

/// A store over a log and a database in memory, each of which fails after so many calls.
type Failing = FileStore<Fuse<Memory>>;

fn id(bytes: &[u8]) -> Result<Id, Fail> {
    Ok(Id::read(bytes).ok_or("no id")?)
}

fn text(bytes: &[u8]) -> Result<Text, Fail> {
    Ok(Text::read(bytes).ok_or("no text")?)
}

/// A connection over a store in memory that holds a desk which has accepted nothing.
fn opened(alloc: Global) -> Result<Connection<MemStore>, Fail> {
    let mut connection = Connection::open_in_memory(alloc)?;
    if !connection.is_autocommit() {
        return Err(Fail::from("a transaction is open"));
    }
    commit_opening(&mut connection)?;
    Ok(connection)
}

fn adopted(alloc: Global, connection: Connection<MemStore>) -> Result<Desk<MemStore>, Fail> {
    if !connection.is_autocommit() {
        return Err(Fail::from("a transaction is open"));
    }
    match Desk::adopt(alloc, connection) {
        Ok(desk) => Ok(desk),
        Err(_) => Err(Fail::from("the store is refused")),
    }
}

/// A command that adds a class without a name.
fn adds(class: &[u8]) -> Result<Envelope, Fail> {
    Ok(Envelope {
        at: Moment::zero(),
        by: text(b"")?,
        note: text(b"")?,
        reference: None,
        body: Command::AddClass(AddClass {
            class: id(class)?,
            name: text(b"")?,
        }),
    })
}

/// Checks that a list of three commands, of which the second is refused, is replied to in its order.
fn is_replied(rt: &impl Abort, report: &RunReport) {
    let wanted = [
        Reply::Accepted(1),
        Reply::Refused(Refusal::Exists),
        Reply::Accepted(2),
    ];
    assert!(rt; report.end.is_none());
    assert!(rt; report.replies.as_slice() == wanted.as_slice());
}

#[test]
fn both_keepers_run_a_list_at_once(rt: HostRuntime) -> Result<(), Fail> {
    let commands = [adds(b"RAW")?, adds(b"RAW")?, adds(b"MADE")?];
    let mut desk = adopted(rt.alloc(), opened(rt.alloc())?)?;
    is_replied(&rt, &desk.run(&commands));
    is_replied(&rt, &ListKeeper::new(rt.alloc()).run(&commands));
    Ok(())
}

/// The first adds a class, and the others are refused since it is there.
#[test]
fn a_run_takes_two_thousand_commands(rt: HostRuntime) -> Result<(), Fail> {
    let mut desk = adopted(rt.alloc(), opened(rt.alloc())?)?;
    let mut commands = Vec::new(rt.alloc());
    for _ in 0..2000 {
        commands.push(adds(b"RAW")?)?;
    }
    let report = desk.run(&commands);
    assert!(rt; report.end.is_none());
    assert_eq!(rt; report.replies.as_slice().len(), 2000);
    Ok(())
}

/// A desk over a log that fails after so many calls; none where it isn't adopted.
fn adopted_within(alloc: Global, calls: u64) -> Result<Option<Desk<Failing>>, Fail> {
    let files = Files {
        log: Fuse::new(Memory::new(alloc), calls),
        db: Fuse::new(Memory::new(alloc), u64::MAX),
    };
    if !files.log.may_be_used() || !files.db.may_be_used() {
        return Ok(None);
    }
    let Ok(connection) = Connection::open_files(alloc, files, Options::new(7)) else {
        return Ok(None);
    };
    if !connection.is_autocommit() {
        return Err(Fail::from("a transaction is open"));
    }
    Ok(Desk::adopt(alloc, connection).ok())
}

/// A desk whose log lasts for its adoption alone, so that its store fails under the first command.
fn failing_desk(alloc: Global) -> Result<Desk<Failing>, Fail> {
    for calls in 0..FAR {
        if let Some(desk) = adopted_within(alloc, calls)? {
            return Ok(desk);
        }
    }
    Err(Fail::from("no log lasts for an adoption"))
}

#[test]
fn a_desk_that_a_fault_has_shut_answers_shut(rt: HostRuntime) -> Result<(), Fail> {
    let mut desk = failing_desk(rt.alloc())?;
    let commands = [adds(b"RAW")?];
    let first = desk.run(&commands);
    assert!(rt; first.end == Some(DeskFault::Store));
    let report = desk.run(&commands);
    assert!(rt; report.end == Some(DeskFault::Shut));
    assert!(rt; report.replies.as_slice().is_empty());
    for command in &commands {
        assert!(rt; matches!(desk.execute(command), Err(DeskFault::Shut)));
    }
    assert!(rt; matches!(desk.ask(&Question::Desk), Err(DeskFault::Shut)));
    assert!(rt; matches!(desk.verify(), Err(DeskFault::Shut)));
    Ok(())
}

/// A class, and a sublot whose stock no column holds.
fn overfull(alloc: Global) -> Result<Vec<RowChange>, Fail> {
    let mut rows = Vec::new(alloc);
    rows.push(RowChange::Class(Class {
        id: id(b"RAW")?,
        name: text(b"")?,
    }))?;
    rows.push(RowChange::Sublot(Sublot {
        lot: id(b"L-1")?,
        number: 1,
        place: text(b"")?,
        stock: 1 << 63,
    }))?;
    Ok(rows)
}

/// How many classes a store holds.
fn classes(connection: &mut Connection<MemStore>) -> Result<usize, Fail> {
    Ok(connection.query_all("SELECT id FROM class", &[])?.len())
}

#[test]
fn a_row_that_no_column_holds_leaves_nothing(rt: HostRuntime) -> Result<(), Fail> {
    let mut connection = opened(rt.alloc())?;
    if !connection.is_autocommit() {
        return Err(Fail::from("a transaction is open"));
    }
    let reported = commit_changes(&mut connection, &overfull(rt.alloc())?);
    assert!(rt; reported == Err(StoreFault::Store));
    assert_eq!(rt; classes(&mut connection)?, 0);
    Ok(())
}
