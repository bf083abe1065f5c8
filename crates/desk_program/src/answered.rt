//! The subcommands `trace` and `record`: a question, and its answer in lines.
ghost use Rattle.std.specs.Prelude.{◌≡◌, false, IfOk, Some, string_bytes};
ghost use Rattle.sqlite.specs.Effect.{Database};
ghost use Rattle.sqlite.specs.Held.{state};
ghost use Rattle.sqlite.specs.State.{HasCleanDisk};
ghost use Rattle.plant_base.specs.{State, newest_schema};
ghost use Rattle.plant_trace.specs.{node_text};
ghost use Rattle.plant_answers.specs.{answer};
ghost use Rattle.plant_keeper.specs.{IsSameDesk};
ghost use Rattle.plant_desk_store.specs.{HasForeignTables, IsDurablyAt, KeepsForeignTables};
ghost use Rattle.plant_text_answers.specs.{text_of_answer};
ghost use Rattle.plant_text.specs.{with_lf};
ghost use Rattle.desk_program.specs.AnswersWritten.{answer_lines, AnswerPrinted, AnswerWritten};
ghost use Rattle.desk_program.specs.AnswersWritten.{AskedWritten, AskGives};
ghost use Rattle.desk_program.specs.Runs.{WasHonest};

use crate::adopting::{Performed, adopt, performed_of};
use crate::fault::ProgramFault;
use plant_base::{DisplayItem, Joined};
use plant_desk_store::Desk;
use plant_keeper::Keeper;
use plant_questions::{Answer, DeskFault, Question};
use plant_text::{answer_text, is_unknown, record, write_text};
use plant_trace::Node;
use sqlite::{Alter, Connection};
use std::alloc::{AllocError, Global};
use std::fmt;
use std::io::Write;

/// The line of a node.
#[derive(Clone, Copy)]
struct NodeLine;

impl DisplayItem<Node> for NodeLine {
    ghost text = { λ _ n. with_lf (node_text n) };

    fn show<W: fmt::Write>(&self, node: &Node, f: &mut fmt::Formatter<W>) -> fmt::Result {
        writeln!(f, "{node}")
    }
}

/// The text of an answer in a line of JSON.
fn line_of(alloc: Global, answer: &Answer) -> Result<String, AllocError>
    ensures { IfOk result (λ text. string_bytes text ≡ with_lf (text_of_answer answer.now)) }
{
    let mut text = answer_text(alloc, answer)?;
    text.push_str("\n")?;
    Ok(text)
}

/// What is printed of an answer: the nodes of a trace, the record of a batch, else the answer's line.
fn answer_lines(alloc: Global, answer: &Answer) -> Result<String, AllocError>
    ensures { IfOk result (λ text. string_bytes text ≡ answer_lines answer.now) }
{
    match answer {
        Answer::Trace(nodes) => Joined(nodes.as_slice(), NodeLine).to_string(alloc),
        Answer::Batch(view) => record(alloc, view),
        _ => line_of(alloc, answer),
    }
}

/// Prints an answer. `true` where it says that the id isn't known.
fn print_answer<W: Write>(
    alloc: Global,
    writer: &mut W,
    answer: &Answer,
) -> Result<bool, ProgramFault>
    ensures { AnswerPrinted answer.now (W.contents writer.old) (W.contents writer.new) result }
{
    match answer_lines(alloc, answer) {
        Ok(text) => match write_text(writer, text.as_bytes()) {
            Ok(()) => Ok(is_unknown(answer)),
            Err(_) => Err(ProgramFault::Write),
        },
        Err(_) => Err(ProgramFault::Memory),
    }
}

/// Prints what a keeper answered. Its fault is handed on, and nothing is printed.
fn print_asked<W: Write>(
    alloc: Global,
    writer: &mut W,
    asked: Result<Answer, DeskFault>,
) -> Result<bool, ProgramFault>
    ensures { AskedWritten asked (W.contents writer.old) (W.contents writer.new) result }
{
    match asked {
        Ok(answer) => print_answer(alloc, writer, &answer),
        Err(fault) => Err(ProgramFault::from(fault)),
    }
}

/// Asks an open keeper a question, and prints the answer. `true` where it says that the id isn't known.
///
/// The keeper stays open, in the same state. At `Write` a prefix of the answer may have been written; at every other fault
/// nothing was.
pub fn write_answer<W: Write, K: Keeper>(
    alloc: Global,
    writer: &mut W,
    keeper: &mut K,
    question: &Question,
) -> Result<bool, ProgramFault>
    requires { K.shut keeper.old ≡ false }
    ensures same { IsSameDesk K.honest K.schema K.foreign_tables keeper.old keeper.new }
    ensures open { K.shut keeper.new ≡ false }
    ensures stays { K.honest keeper.new → (s : State) → K.represents keeper.old s → K.represents keeper.new s }
    ensures reported { K.honest keeper.new → (s : State) → K.represents keeper.old s
        → AnswerWritten (answer (K.schema keeper.old) s question.now)
        (W.contents writer.old) (W.contents writer.new) result }
{
    print_asked(alloc, writer, keeper.ask(question))
}

/// Asks an open desk, and gives its store back.
fn ask_desk<S: Alter + Drop, W: Write>(
    alloc: Global,
    mut desk: Desk<S>,
    writer: &mut W,
    question: &Question,
) -> Performed<S>
    requires { desk.is_shut ≡ false }
    ensures honest { HasCleanDisk (state S.Store result.connection)
        → HasCleanDisk (state S.Store desk.connection) }
    ensures others { HasCleanDisk (state S.Store result.connection) → (before : Database)
        → HasForeignTables (state S.Store desk.connection) desk.is_shut before
        → KeepsForeignTables before (state S.Store result.connection) }
    ensures reported { HasCleanDisk (state S.Store result.connection)
        → (s : State) → IsDurablyAt (state S.Store desk.connection) s
        → IsDurablyAt (state S.Store result.connection) s
        × AnswerWritten (answer newest_schema s question.now)
        (W.contents writer.old) (W.contents writer.new) result.outcome }
{
    let outcome = write_answer(alloc, writer, &mut desk, question);
    Performed {
        outcome,
        connection: desk.close(),
    }
}

/// Adopts the store, asks the desk a question, and prints the answer, as [`write_answer`] does.
pub(crate) fn ask_store<S: Alter + Drop, W: Write>(
    alloc: Global,
    connection: Connection<S>,
    writer: &mut W,
    question: &Question,
) -> Performed<S>
    requires { (state S.Store connection).in_transaction ≡ false }
    ensures gives { AskGives (state S.Store connection) (state S.Store result.connection) question.now
        (W.contents writer.old) (W.contents writer.new) result.outcome }
    ensures honest { WasHonest (state S.Store connection) (state S.Store result.connection) }
{
    match adopt(alloc, connection) {
        Ok(desk) => ask_desk(alloc, desk, writer, question),
        Err(stopped) => performed_of(stopped),
    }
}
