//! Tasks of the program by `perform`, over a store in memory and one in files: what is printed, and the exit status.
use crate::commands::first_commands;
use crate::stores::{desk_over, files_of, in_memory, opened};
use desk_cli::Task;
use desk_program::perform;
use plant_base::{Id, Moment, Text};
use plant_trace::Direction;
use sqlite::{Alter, Connection};
use std::alloc::AllocGlobal;
use std::process::Abort;
use std::test::Fail;

/// Two commands, and the question of the desk.
const LINES: &[u8] =
    b"{\"at\":100,\"by\":\"anna\",\"do\":\"add_class\",\"class\":\"RAW\",\"name\":\"Raw goods\"}
{\"at\":100,\"by\":\"anna\",\"do\":\"add_definition\",\"def\":\"SUGAR\",\"class\":\"RAW\",\"name\":\"Sugar\",\"unit\":\"g\"}
{\"ask\":\"desk\"}
";

/// What is answered.
const REPLIES: &str = "{\"ok\":1}\n{\"ok\":2}\n{\"schema\":4,\"seq\":2}\n";

/// An order file of a header alone, and one whose order names no recipe that is there.
const HEADER: &[u8] = b"order,recipe,version,size,due,priority\n";

const ORDER: &[u8] = b"order,recipe,version,size,due,priority\nO-1,CAKE,1,500,2027-03-01,5\n";

/// The record of the batch of the twenty commands.
const RECORD: &str = "BATCH RECORD B-1
order O-1 due 2027-03-01 priority 5 state finished
recipe CAKE 1 product DOUGH size 500 base 300
released at 0 by anna
state complete attempt 1 phases 1 of 1 closed
CONTROL RECIPE
  1 in FLOUR 167 kg
  2 out DOUGH 500 kg
  3 par TEMP 80 C
  4 phase MIX BLEND STIR
EVENTS
     9 start at 0 by anna
    11 phase 1 at 0 by ben
    13 done at 1 by ben
    14 close at 2 by ben
CONSUMED
    10 F-1/0 FLOUR 167 kg at 0 by anna
PRODUCED
    12 D-1 DOUGH 490 kg scrapped 0 at 1 by ben
TOTALS
in FLOUR asked 167 booked 167
out DOUGH asked 500 booked 490
END
";

/// Checks how a task ends over a store: its exit status, and what it writes.
fn check_performed<S: Alter + Drop>(
    rt: &(impl Abort + AllocGlobal),
    connection: Connection<S>,
    task: &Task,
    input: &[u8],
    wanted: (u8, &str, &str),
) -> Result<(), Fail> {
    if !connection.is_autocommit() {
        return Err(Fail::from("a transaction is open"));
    }
    let mut rest = input;
    let mut output = Vec::new(rt.alloc());
    let mut errors = Vec::new(rt.alloc());
    let status = perform(
        rt.alloc(),
        task,
        connection,
        &mut rest,
        &mut output,
        &mut errors,
    );
    assert_eq!(rt; status, wanted.0);
    assert_eq!(rt; output.as_slice(), wanted.1.as_bytes());
    assert_eq!(rt; errors.as_slice(), wanted.2.as_bytes());
    Ok(())
}

/// Checks it over a new store in memory, and over new files.
fn check_over_both(
    rt: &(impl Abort + AllocGlobal),
    task: &Task,
    input: &[u8],
    wanted: (u8, &str, &str),
) -> Result<(), Fail> {
    check_performed(rt, in_memory(rt.alloc())?, task, input, wanted)?;
    let files = files_of(rt.alloc(), &[], &[], [u64::MAX, u64::MAX])?;
    match opened(rt.alloc(), files) {
        Ok(connection) => check_performed(rt, connection, task, input, wanted),
        Err(_) => Err(Fail::from("the files don't open")),
    }
}

/// A store whose desk has accepted the twenty commands.
fn filled<S: Alter + Drop>(
    rt: &(impl Abort + AllocGlobal),
    connection: Connection<S>,
) -> Result<Connection<S>, Fail> {
    let mut desk = desk_over(rt.alloc(), connection)?;
    let report = desk.run(&first_commands(rt.alloc(), 20)?);
    assert!(rt; report.end.is_none());
    Ok(desk.close())
}

/// Checks what a task prints of the twenty commands, over a store in memory and over files.
fn check_answered(rt: &(impl Abort + AllocGlobal), task: &Task, wanted: &str) -> Result<(), Fail> {
    let store = filled(rt, in_memory(rt.alloc())?)?;
    check_performed(rt, store, task, b"", (0, wanted, ""))?;
    let files = files_of(rt.alloc(), &[], &[], [u64::MAX, u64::MAX])?;
    match opened(rt.alloc(), files) {
        Ok(connection) => {
            check_performed(rt, filled(rt, connection)?, task, b"", (0, wanted, ""))
        }
        Err(_) => Err(Fail::from("the files don't open")),
    }
}

fn import(reference: Option<Id>) -> Result<Task, Fail> {
    Ok(Task::Import {
        at: Moment::zero(),
        by: Text::read(b"desk").ok_or("no text")?,
        reference,
    })
}

#[test]
fn init_prints_the_schema(rt: HostRuntime) -> Result<(), Fail> {
    check_over_both(&rt, &Task::Init, b"", (0, "ready schema 4\n", ""))
}

#[test]
fn verify_prints_the_schema_and_the_number_of_commands(rt: HostRuntime) -> Result<(), Fail> {
    check_over_both(&rt, &Task::Verify, b"", (0, "good schema 4 seq 0\n", ""))
}

#[test]
fn run_answers_lines(rt: HostRuntime) -> Result<(), Fail> {
    check_over_both(&rt, &Task::Run, b"", (0, "", ""))?;
    check_over_both(&rt, &Task::Run, LINES, (0, REPLIES, ""))
}

#[test]
fn import_prints_the_reply_or_the_fault(rt: HostRuntime) -> Result<(), Fail> {
    check_over_both(&rt, &import(None)?, HEADER, (0, "{\"ok\":1}\n", ""))?;
    check_over_both(
        &rt,
        &import(Id::read(b"K-1"))?,
        HEADER,
        (0, "{\"ok\":1}\n", ""),
    )?;
    let refused = "{\"name\":\"UnknownRecipe\",\"refused\":6}\n";
    check_over_both(&rt, &import(None)?, ORDER, (1, refused, ""))?;
    check_over_both(
        &rt,
        &import(None)?,
        b"orders\n",
        (1, "csv row 0 Header\n", ""),
    )
}

#[test]
fn questions_on_unknown_ids_print_the_refusal(rt: HostRuntime) -> Result<(), Fail> {
    check_over_both(
        &rt,
        &trace(Direction::Back, b"L-9")?,
        b"",
        (1, "{\"name\":\"UnknownLot\",\"refused\":9}\n", ""),
    )?;
    let record = Task::Record {
        batch: Id::read(b"B-9").ok_or("no id")?,
    };
    check_over_both(
        &rt,
        &record,
        b"",
        (1, "{\"name\":\"UnknownBatch\",\"refused\":8}\n", ""),
    )
}

fn trace(direction: Direction, lot: &[u8]) -> Result<Task, Fail> {
    Ok(Task::Trace {
        direction,
        lot: Id::read(lot).ok_or("no id")?,
    })
}

#[test]
fn lot_that_is_there_is_traced_forward(rt: HostRuntime) -> Result<(), Fail> {
    let task = Task::Trace {
        direction: Direction::Forward,
        lot: Id::read(b"F-1").ok_or("no id")?,
    };
    check_answered(&rt, &task, "lot D-1\nlot D-2\nlot D-3\nbatch B-1\n")
}

#[test]
fn lot_that_is_there_is_traced_back(rt: HostRuntime) -> Result<(), Fail> {
    let task = Task::Trace {
        direction: Direction::Back,
        lot: Id::read(b"D-3").ok_or("no id")?,
    };
    check_answered(&rt, &task, "lot D-1\nlot D-2\nlot F-1\nbatch B-1\n")
}

#[test]
fn record_of_a_batch_that_is_there_is_printed(rt: HostRuntime) -> Result<(), Fail> {
    let task = Task::Record {
        batch: Id::read(b"B-1").ok_or("no id")?,
    };
    check_answered(&rt, &task, RECORD)
}
