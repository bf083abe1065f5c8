//! One line: what it says, what the keeper does, what is written.
ghost use Rattle.std.specs.Prelude.{◌≡◌, ℕ, Bool, List, false, string_bytes, IfErr, IfOk, IsErrAnd};
ghost use Rattle.std.specs.Prelude.{OnOk};
ghost use Rattle.plant_base.specs.{State};
ghost use Rattle.plant_keeper.specs.{IsSameDesk};
ghost use Rattle.plant_text.specs.Session.{entry_of, is_refusal, is_unknown};
ghost use Rattle.plant_text.specs.Session.{command as command_entry, question as question_entry};
ghost use Rattle.plant_text.specs.Session.{check as check_entry};
ghost use Rattle.plant_text_answers.specs.{text_of_answer};
ghost use Rattle.plant_text_checks.specs.{check_text};
ghost use Rattle.plant_text.specs.Turns.{TurnEnds, FaultWritten, AnswerWritten, BadWritten};

use crate::checks::answer_check;
use crate::read::{Line, read_line};
use crate::writes::write_line;
use plant_base::{Envelope, Refusal};
use plant_json_in::{LineFault, ToCheck};
use plant_keeper::Keeper;
use plant_questions::{Answer, DeskFault, Question, Reply};
use plant_text_answers::{answer_text, fault_line, reply_line};
use plant_text_checks::{CheckAnswer, check_text};
use std::alloc::{AllocError, Global};
use std::io::Write;
use thiserror::Error;

/// Why a run stops before the end of its input.
#[derive(Clone, Copy, Debug, PartialEq, Eq, Error)]
pub enum TurnError {
    /// A text couldn't be written whole.
    #[error("a text couldn't be written whole")]
    Write,
    /// The fault, whose line was written.
    #[error("{0}")]
    Fault(DeskFault),
}

/// Writes a fault's line and an LF.
///
/// `Fault` gives the fault back; `Write` comes where the line couldn't be written whole.
pub fn write_fault<W: Write>(writer: &mut W, fault: DeskFault) -> TurnError
    ensures { FaultWritten fault (W.contents writer.old) (W.contents writer.new) result }
{
    match write_line(writer, fault_line(fault).as_bytes()) {
        Ok(()) => TurnError::Fault(fault),
        Err(_) => TurnError::Write,
    }
}

fn is_refusal(reply: &Reply) -> bool
    ensures { result ≡ is_refusal reply.now }
{
    match reply {
        Reply::Accepted(_) => false,
        Reply::Refused(_) => true,
    }
}

/// Whether an answer says that the question names something that isn't there.
pub fn is_unknown(answer: &Answer) -> bool
    ensures { result ≡ is_unknown answer.now }
{
    match answer {
        Answer::Unknown(_) => true,
        _ => false,
    }
}

/// Answers a line that says nothing.
fn write_bad_form<W: Write>(writer: &mut W) -> Result<bool, TurnError>
    ensures { BadWritten (W.contents writer.old) (W.contents writer.new) result }
{
    let text = reply_line(&Reply::Refused(Refusal::BadForm));
    match write_line(writer, text.as_bytes()) {
        Ok(()) => Ok(true),
        Err(_) => Err(TurnError::Write),
    }
}

/// Has a command executed by an open keeper, and writes the reply and an LF. `true` where the reply is a refusal.
///
/// It is handed no allocator, and the reply's text is in a buffer of fixed size: between the keeper's reply and the
/// end of its line no memory is taken, so that only the writer can keep the line back.
///
/// `Fault` comes where the keeper's fault does, whose line was written; `Write` where a line couldn't be written whole.
pub fn take_command<W: Write, K: Keeper>(
    writer: &mut W,
    keeper: &mut K,
    envelope: &Envelope,
) -> Result<bool, TurnError>
    requires { K.shut keeper.old ≡ false }
    ensures same { IsSameDesk K.honest K.schema K.foreign_tables keeper.old keeper.new }
    ensures open { OnOk result (K.shut keeper.new ≡ false) }
    ensures ends { K.honest keeper.new → (s : State) → K.represents keeper.old s
        → TurnEnds (K.schema keeper.old) s (command_entry envelope.now)
        (W.contents writer.old) (W.contents writer.new)
        (K.represents keeper.new) (K.shut keeper.new) (K.crash_states keeper.new) result }
{
    match keeper.execute(envelope) {
        Ok(reply) => match write_line(writer, reply_line(&reply).as_bytes()) {
            Ok(()) => Ok(is_refusal(&reply)),
            Err(_) => Err(TurnError::Write),
        },
        Err(fault) => Err(write_fault(writer, fault)),
    }
}

/// Writes an answer's text, and says whether the answer names something that isn't there.
///
/// Where memory was refused for the text, that fault's line is written instead.
fn write_made<W: Write>(
    writer: &mut W,
    made: Result<String, AllocError>,
    unknown: bool,
) -> Result<bool, TurnError>
    ensures { (text : List ℕ) → IfOk made (λ s. string_bytes s ≡ text)
        → AnswerWritten text unknown (W.contents writer.old) (W.contents writer.new) result }
{
    match made {
        Ok(text) => match write_line(writer, text.as_bytes()) {
            Ok(()) => Ok(unknown),
            Err(_) => Err(TurnError::Write),
        },
        Err(_) => Err(write_fault(writer, DeskFault::Memory)),
    }
}

/// Writes the outcome of a question: the answer's text, which may be a refusal, or the line of the fault.
///
/// Where memory is refused for the text, that fault's line is written instead.
fn write_answer<W: Write>(
    alloc: Global,
    writer: &mut W,
    asked: Result<Answer, DeskFault>,
) -> Result<bool, TurnError>
    ensures answered { IfOk asked (λ answer. AnswerWritten (text_of_answer answer) (is_unknown answer)
        (W.contents writer.old) (W.contents writer.new) result) }
    ensures faulted { IfErr asked (λ fault. IsErrAnd result
        (FaultWritten fault (W.contents writer.old) (W.contents writer.new))) }
{
    match asked {
        Ok(answer) => write_made(writer, answer_text(alloc, &answer), is_unknown(&answer)),
        Err(cause) => Err(write_fault(writer, cause)),
    }
}

/// Asks a question, and writes the answer.
fn take_question<W: Write, K: Keeper>(
    alloc: Global,
    writer: &mut W,
    keeper: &mut K,
    question: &Question,
) -> Result<bool, TurnError>
    requires { K.shut keeper.old ≡ false }
    ensures same { IsSameDesk K.honest K.schema K.foreign_tables keeper.old keeper.new }
    ensures open { OnOk result (K.shut keeper.new ≡ false) }
    ensures ends { K.honest keeper.new → (s : State) → K.represents keeper.old s
        → TurnEnds (K.schema keeper.old) s (question_entry question.now)
        (W.contents writer.old) (W.contents writer.new)
        (K.represents keeper.new) (K.shut keeper.new) (K.crash_states keeper.new) result }
{
    write_answer(alloc, writer, keeper.ask(question))
}

/// Writes the outcome of a check: the answer's text, or the line of the fault.
///
/// Where memory is refused for the text, that fault's line is written instead.
fn write_check<W: Write>(
    alloc: Global,
    writer: &mut W,
    checked: Result<CheckAnswer, DeskFault>,
) -> Result<bool, TurnError>
    ensures answered { IfOk checked (λ answer. AnswerWritten (check_text answer) false
        (W.contents writer.old) (W.contents writer.new) result) }
    ensures faulted { IfErr checked (λ fault. IsErrAnd result
        (FaultWritten fault (W.contents writer.old) (W.contents writer.new))) }
{
    match checked {
        Ok(answer) => write_made(writer, check_text(alloc, &answer), false),
        Err(desk_fault) => Err(write_fault(writer, desk_fault)),
    }
}

/// Checks a command, and writes what would become of it.
fn take_check<W: Write, K: Keeper>(
    alloc: Global,
    writer: &mut W,
    keeper: &mut K,
    to_check: &ToCheck,
) -> Result<bool, TurnError>
    requires { K.shut keeper.old ≡ false }
    ensures same { IsSameDesk K.honest K.schema K.foreign_tables keeper.old keeper.new }
    ensures open { OnOk result (K.shut keeper.new ≡ false) }
    ensures ends { K.honest keeper.new → (s : State) → K.represents keeper.old s
        → TurnEnds (K.schema keeper.old) s (check_entry to_check.now)
        (W.contents writer.old) (W.contents writer.new)
        (K.represents keeper.new) (K.shut keeper.new) (K.crash_states keeper.new) result }
{
    write_check(alloc, writer, answer_check(keeper, to_check))
}

/// Takes one line. `true` where its reply is a refusal.
pub(crate) fn take_line<W: Write, K: Keeper>(
    alloc: Global,
    writer: &mut W,
    keeper: &mut K,
    line: &[u8],
) -> Result<bool, TurnError>
    requires { K.shut keeper.old ≡ false }
    ensures same { IsSameDesk K.honest K.schema K.foreign_tables keeper.old keeper.new }
    ensures open { OnOk result (K.shut keeper.new ≡ false) }
    ensures ends { K.honest keeper.new → (s : State) → K.represents keeper.old s
        → TurnEnds (K.schema keeper.old) s (entry_of line.now)
        (W.contents writer.old) (W.contents writer.new)
        (K.represents keeper.new) (K.shut keeper.new) (K.crash_states keeper.new) result }
{
    if line.is_empty() {
        return Ok(false);
    }
    match read_line(alloc, line) {
        Ok(Line::Command(envelope)) => take_command(writer, keeper, &envelope),
        Ok(Line::Question(question)) => take_question(alloc, writer, keeper, &question),
        Ok(Line::Check(to_check)) => take_check(alloc, writer, keeper, &to_check),
        Err(LineFault::BadForm) => write_bad_form(writer),
        Err(LineFault::Memory) => Err(write_fault(writer, DeskFault::Memory)),
    }
}
