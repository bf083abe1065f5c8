//! What the program does for its arguments.
ghost use Rattle.std.specs.Prelude.{◌≡◌, false, Bool, Result};
ghost use Rattle.sqlite.specs.Held.{Held, state};
ghost use Rattle.desk_program.specs.AnswersWritten.{AskGives};
ghost use Rattle.desk_program.specs.ImportOutcomes.{ImportGives};
ghost use Rattle.desk_program.specs.TaskOutput.{Exits, IsGoodLine, IsReady, PrintsLine};
ghost use Rattle.desk_program.specs.TaskOutput.{after_closing};
ghost use Rattle.desk_program.specs.Reports.{ReportGives, good_line, ready_line};
ghost use Rattle.desk_program.specs.Runs.{RunGives, WasHonest};
ghost use Rattle.desk_program.specs.Tasks.{TaskGives, metadata_of_import};
ghost use Rattle.desk_program.specs.declared.fault.ProgramFault.{ProgramFault};

use crate::adopting::{Performed, performed_of};
use crate::answered::ask_store;
use crate::fault::{ProgramFault, outcome_of};
use crate::fault_lines::write_fault;
use crate::importing_orders::import_store;
use crate::ready::init;
use crate::session::{Session, run};
use crate::verification::verify;
use desk_cli::Task;
use plant_base::{Id, Moment, Stamp, Text};
use plant_orders::ImportMetadata;
use plant_questions::Question;
use plant_trace::Node;
use sqlite::{Alter, Connection};
use std::alloc::Global;
use std::io::{Read, Write};

/// Does a run.
fn perform_run<S: Alter + Drop, R: Read, W: Write>(
    alloc: Global,
    connection: Connection<S>,
    reader: &mut R,
    writer: &mut W,
) -> Performed<S>
    requires { (state S.Store connection).in_transaction ≡ false }
    ensures gives { RunGives (state S.Store connection) (state S.Store result.connection)
        (R.remaining reader.old) (R.remaining reader.new)
        (W.contents writer.old) (W.contents writer.new) result.outcome }
    ensures honest { WasHonest (state S.Store connection) (state S.Store result.connection) }
{
    match run(alloc, connection, reader, writer) {
        Ok(session) => {
            let Session { desk, end } = session;
            Performed {
                outcome: outcome_of(end),
                connection: desk.close(),
            }
        }
        Err(stopped) => performed_of(stopped),
    }
}

/// Makes a desk.
fn perform_init<S: Alter + Drop, W: Write>(
    alloc: Global,
    connection: Connection<S>,
    writer: &mut W,
) -> Performed<S>
    requires { (state S.Store connection).in_transaction ≡ false }
    ensures printed { PrintsLine IsReady (W.contents writer.old) (W.contents writer.new) result.outcome }
    ensures gives { ReportGives ready_line (state S.Store connection) (state S.Store result.connection)
        (W.contents writer.old) (W.contents writer.new) result.outcome }
    ensures honest { WasHonest (state S.Store connection) (state S.Store result.connection) }
{
    match init(alloc, connection, writer) {
        Ok(desk) => Performed {
            outcome: Ok(false),
            connection: desk.close(),
        },
        Err(stopped) => performed_of(stopped),
    }
}

/// Checks a desk.
fn perform_verify<S: Alter + Drop, W: Write>(
    alloc: Global,
    connection: Connection<S>,
    writer: &mut W,
) -> Performed<S>
    requires { (state S.Store connection).in_transaction ≡ false }
    ensures printed { PrintsLine IsGoodLine (W.contents writer.old) (W.contents writer.new) result.outcome }
    ensures gives { ReportGives good_line (state S.Store connection) (state S.Store result.connection)
        (W.contents writer.old) (W.contents writer.new) result.outcome }
    ensures honest { WasHonest (state S.Store connection) (state S.Store result.connection) }
{
    match verify(alloc, connection, writer) {
        Ok(desk) => Performed {
            outcome: Ok(false),
            connection: desk.close(),
        },
        Err(stopped) => performed_of(stopped),
    }
}

/// When, by whom and under which reference orders came; they are noted with nothing.
fn metadata_of_import(at: Moment, by: Text, reference: Option<Id>) -> ImportMetadata
    ensures { result ≡ metadata_of_import at by reference }
{
    match Text::read(b"") {
        Some(note) => ImportMetadata {
            stamp: Stamp { at, by, note },
            reference,
        },
        None => unreachable!(),
    }
}

/// Takes in an order file.
fn perform_import<S: Alter + Drop, R: Read, W: Write>(
    alloc: Global,
    connection: Connection<S>,
    reader: &mut R,
    writer: &mut W,
    import_metadata: ImportMetadata,
) -> Performed<S>
    requires { (state S.Store connection).in_transaction ≡ false }
    ensures gives { ImportGives (state S.Store connection) (state S.Store result.connection)
        import_metadata (R.remaining reader.old) (W.contents writer.old) (W.contents writer.new)
        result.outcome }
    ensures honest { WasHonest (state S.Store connection) (state S.Store result.connection) }
{
    import_store(alloc, connection, reader, writer, import_metadata)
}

/// Asks a question.
fn perform_question<S: Alter + Drop, W: Write>(
    alloc: Global,
    connection: Connection<S>,
    writer: &mut W,
    question: &Question,
) -> Performed<S>
    requires { (state S.Store connection).in_transaction ≡ false }
    ensures gives { AskGives (state S.Store connection) (state S.Store result.connection) question.now
        (W.contents writer.old) (W.contents writer.new) result.outcome }
    ensures honest { WasHonest (state S.Store connection) (state S.Store result.connection) }
{
    ask_store(alloc, connection, writer, question)
}

/// Does a task over a store that was just opened, and gives it back to be closed.
///
/// The clause says the outcome of the task by the store that is given back, where that has kept its specification until
/// then: of a run what [`run`] does, of an import what [`take_file`] does, of a trace and a record what [`write_answer`]
/// does, and of the other subcommands what [`init`] and [`verify`] do. Where the store wasn't adopted, it says so in any
/// case, with the fault's cause.
pub fn perform_task<S: Alter + Drop, R: Read, W: Write>(
    alloc: Global,
    task: &Task,
    connection: Connection<S>,
    reader: &mut R,
    writer: &mut W,
) -> Performed<S>
    requires { (state S.Store connection).in_transaction ≡ false }
    ensures gives { TaskGives (state S.Store connection) (state S.Store result.connection) task.now
        (R.remaining reader.old) (R.remaining reader.new)
        (W.contents writer.old) (W.contents writer.new) result.outcome }
    ensures honest { WasHonest (state S.Store connection) (state S.Store result.connection) }
{
    match *task {
        Task::Init => perform_init(alloc, connection, writer),
        Task::Run => perform_run(alloc, connection, reader, writer),
        Task::Import { at, by, reference } => {
            let import_metadata = metadata_of_import(at, by, reference);
            perform_import(alloc, connection, reader, writer, import_metadata)
        }
        Task::Trace { direction, lot } => {
            let question = Question::Trace(direction, Node::Lot(lot));
            perform_question(alloc, connection, writer, &question)
        }
        Task::Record { batch } => {
            let question = Question::Batch(batch);
            perform_question(alloc, connection, writer, &question)
        }
        Task::Verify => perform_verify(alloc, connection, writer),
    }
}

/// The outcome of a task whose store was closed after it, or couldn't be: a close that fails is a fault of the store, unless
/// another fault came before it.
pub fn after_closing(
    outcome: Result<bool, ProgramFault>,
    is_closed: bool,
) -> Result<bool, ProgramFault>
    ensures { result ≡ after_closing outcome is_closed }
{
    if is_closed {
        return outcome;
    }
    outcome?;
    Err(ProgramFault::Store)
}

/// Prints how a task ended, and gives the exit status: 0; 1 where something was refused; 3 or 4 at a fault, whose line is
/// then the one line on standard error.
pub fn write_outcome<E: Write>(outcome: Result<bool, ProgramFault>, errors: &mut E) -> u8
    ensures { Exits (E.contents errors.old) (E.contents errors.new) result outcome }
{
    match outcome {
        Ok(refused) => u8::from(refused),
        Err(fault) => write_fault(fault, errors),
    }
}

/// Does a task over a store that was just opened and the three standard streams, and gives the exit status, as
/// [`write_outcome`] does. The store is dropped at the end, so that the clause can only say that there was one;
/// [`perform_task`] gives it back instead.
pub fn perform<S: Alter + Drop, R: Read, W: Write, E: Write>(
    alloc: Global,
    task: &Task,
    connection: Connection<S>,
    reader: &mut R,
    writer: &mut W,
    errors: &mut E,
) -> u8
    requires { (state S.Store connection).in_transaction ≡ false }
    ensures { (outcome : Result Bool ProgramFault) × Exits (E.contents errors.old)
        (E.contents errors.new) result outcome
        × ((after : Held S) × TaskGives (state S.Store connection) (state S.Store after) task.now
        (R.remaining reader.old) (R.remaining reader.new)
        (W.contents writer.old) (W.contents writer.new) outcome) }
{
    let performed = perform_task(alloc, task, connection, reader, writer);
    write_outcome(performed.outcome, errors)
}
