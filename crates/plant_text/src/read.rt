//! What a line says, or what is wrong with it.
ghost use Rattle.std.specs.Prelude.{◌≡◌, ◌<◌, length, true, false, Result, Some, None, Ok, Err, IfOk};
ghost use Rattle.std.specs.Prelude.{IfErr, IsErrOf};
ghost use Rattle.serde_json.specs.Data.{Data};
ghost use Rattle.serde_json.specs.Errors.{IsMemory};
ghost use Rattle.serde_json.specs.View.{view};
ghost use Rattle.plant_json_in.specs.{FormatError as Problem, IsReported, Reports};
ghost use Rattle.plant_json_in.specs.declared.format_errors.FormatError.TheVariants as format_error;
ghost use Rattle.plant_text.specs.Lines.{longest_line, kind_at, question_line, object_says, value_says};
ghost use Rattle.plant_text.specs.Lines.{IsProblemOf, checked_by, line_says, line_of};
ghost use Rattle.plant_text.specs.Lines.{question_asked, question_kind, text_checked, value_in};

use plant_base::Envelope;
use plant_json_in::{
    AskedKind, FormatError, LineFault, Member, QuestionKind, ReadFault, ShapeError, ToCheck,
    asked_kind, check_of, command_of, fields_of, node_in, question_of, to_check_of,
};
use plant_questions::Question;
use serde_json::Value;
use std::alloc::Global;

/// What a line says to the desk.
#[derive(Drop)]
pub enum Line {
    /// A command for the desk to execute.
    Command(Envelope),
    /// A question about the desk's state.
    Question(Question),
    /// The question what would become of a command.
    Check(ToCheck),
}

/// Whether a read failed for its text, and not for want of memory.
fn is_refusal(error: &serde_json::Error) -> bool
    ensures refusal { result ≡ true → ¬ IsMemory error.now }
    ensures memory { result ≡ false → IsMemory error.now }
{
    if error.is_memory() { false } else { true }
}

fn kind_at(value: &Value) -> Option<AskedKind>
    ensures { result ≡ kind_at (view value.now) }
{
    asked_kind(value.get("ask")?.as_str()?)
}

/// The kind of the question that an object is whose word asks for this; a check has none.
fn question_kind(value: &Value, asked: AskedKind) -> Result<QuestionKind, FormatError>
    ensures { result ≡ question_kind asked (view value.now) }
{
    match asked {
        AskedKind::About(topic) => Ok(QuestionKind::About(topic)),
        AskedKind::List(list) => Ok(QuestionKind::List(list)),
        AskedKind::Around(around) => match node_in(value) {
            Some(node) => Ok(QuestionKind::Around(around, node)),
            None => Err(FormatError::NothingTraced),
        },
        AskedKind::Check => Err(FormatError::Object(ShapeError::Malformed)),
    }
}

fn question_asked(value: &Value, asked: AskedKind) -> Result<Line, FormatError>
    ensures { result ≡ question_asked asked (view value.now) }
{
    let kind = question_kind(value, asked)?;
    Ok(Line::Question(question_of(value, kind)?))
}

fn read_question(alloc: Global, value: &Value) -> Result<Line, ReadFault>
    ensures { Reports result (question_line (view value.now)) }
{
    match kind_at(value) {
        Some(AskedKind::Check) => Ok(Line::Check(check_of(alloc, value)?)),
        Some(asked) => match question_asked(value, asked) {
            Ok(line) => Ok(line),
            Err(format_error) => Err(ReadFault::Reported(format_error)),
        },
        None => match fields_of(value, &[Member::Ask]) {
            Ok(_) => Err(ReadFault::Reported(FormatError::Object(ShapeError::Malformed))),
            Err(shape_error) => Err(ReadFault::Reported(FormatError::Object(shape_error))),
        },
    }
}

/// The question that an object is, or the check that it asks for, or its first problem.
fn question_line(alloc: Global, value: &Value) -> Result<Line, ReadFault>
    ensures reads { Reports result (question_line (view value.now)) }
    ensures reported { IsReported result }
{
    read_question(alloc, value)
}

/// The command that an object is, or what it asks for, or its first problem.
fn object_says(alloc: Global, value: &Value) -> Result<Line, ReadFault>
    ensures reads { Reports result (object_says (view value.now)) }
    ensures reported { IsReported result }
{
    if value.get("do").is_some() {
        Ok(Line::Command(command_of(alloc, value)?))
    } else if value.get("ask").is_some() {
        question_line(alloc, value)
    } else {
        Err(ReadFault::Reported(FormatError::Neither))
    }
}

/// What a value says, or its first problem.
fn value_says(alloc: Global, value: &Value) -> Result<Line, ReadFault>
    ensures reads { Reports result (value_says (view value.now)) }
    ensures reported { IsReported result }
{
    if value.as_object().is_some() {
        object_says(alloc, value)
    } else {
        Err(ReadFault::Reported(FormatError::Object(ShapeError::NoObject)))
    }
}

/// The bytes of the longest line that is read, its LF and the one CR before it not counted.
const LONGEST_LINE: usize = 262_144;

/// The JSON value of a text (RFC 8259) of 262,144 bytes at most, in UTF-8, as serde_json reads it; or why it has none.
fn value_of(alloc: Global, bytes: &[u8]) -> Result<Value, ReadFault>
    ensures value { IfOk result (λ value. value_in bytes.now ≡ Ok (view value)) }
    ensures problem { IfErr result (λ fault. IsProblemOf fault (value_in bytes.now)) }
    ensures reported { IsReported result }
    ensures long { longest_line < length bytes.now → IsErrOf result (ReadFault.Reported format_error.TooLong) }
{
    if bytes.len() > LONGEST_LINE {
        return Err(ReadFault::Reported(FormatError::TooLong));
    }
    match Value::from_slice(alloc, bytes) {
        Ok(value) => Ok(value),
        Err(error) => {
            if is_refusal(&error) {
                Err(ReadFault::Reported(FormatError::NoJson))
            } else {
                Err(ReadFault::Memory)
            }
        }
    }
}

/// Reads a line, which is given without its LF: what it says, or what is wrong with it.
///
/// The line is a JSON text (RFC 8259) of 262,144 bytes at most, in UTF-8, as serde_json reads it; of members with one name the last
/// counts. An object with `do` is a command where it has the members that each command has (of which the note and the reference may be
/// left out), those of its word and no other, and in its list objects with exactly the members of their kind; which members these are, and
/// what each may be, is in the tables of `plant_json_in`. Another with `ask` is a question: exactly `{"ask":"desk"}`;
/// `{"ask":"lot","lot":ID}` and likewise with `order`, `batch` and `recall`; `{"ask":"back","lot":ID}` or
/// `{"ask":"back","batch":ID}` and likewise with `forward`; `{"ask":"moment"}`; or one for a page of a list, with its word and what it is of, and
/// with the id that it goes on from where one is given. `{"ask":"check","command":OBJECT}` asks what would become of a command, and is taken
/// also where its OBJECT is none.
///
/// - `Reported`: the line is longer or has none of these shapes, and this is the first thing that is wrong with it, in the order of the
///   formats, with a text of its own.
/// - `Memory`: memory was refused. It may come for any line that isn't longer, since serde_json asks for memory first.
pub fn read_line_or_error(alloc: Global, bytes: &[u8]) -> Result<Line, ReadFault>
    ensures reads { Reports result (line_says bytes.now) }
    ensures reported { IsReported result }
    ensures long { longest_line < length bytes.now → IsErrOf result (ReadFault.Reported format_error.TooLong) }
{
    match value_of(alloc, bytes) {
        Ok(value) => value_says(alloc, &value),
        Err(fault) => Err(fault),
    }
}

/// Reads a line, as [`read_line_or_error`] does, without its problem.
///
/// `BadForm` comes exactly from a line that is longer or has none of the shapes. `Memory` may come for any line that isn't longer.
pub fn read_line(alloc: Global, bytes: &[u8]) -> Result<Line, LineFault>
    ensures ok { IfOk result (λ line. line_of bytes.now ≡ Some line) }
    ensures bad_form { IsErrOf result LineFault.BadForm → line_of bytes.now ≡ None }
    ensures long { longest_line < length bytes.now → IsErrOf result LineFault.BadForm }
{
    match read_line_or_error(alloc, bytes) {
        Ok(line) => Ok(line),
        Err(ReadFault::Reported(_)) => Err(LineFault::BadForm),
        Err(ReadFault::Memory) => Err(LineFault::Memory),
    }
}

/// What is to be checked of a text that has this problem. The only error is `Memory`, of which nothing is said.
fn without_value(fault: ReadFault) -> Result<ToCheck, ReadFault>
    ensures { (read : Result Data Problem) → IsProblemOf fault read → Reports result (Ok (checked_by read)) }
{
    match fault {
        ReadFault::Reported(format_error) => Ok(ToCheck::BadForm(format_error)),
        ReadFault::Memory => Err(ReadFault::Memory),
    }
}

/// Reads a text in the place of a command: what is to be checked, or what is wrong with it, in the words that [`read_line_or_error`] has of
/// a line; of an object with `ask` and without `do` that `do` is missing.
///
/// The only error is `Memory`: memory was refused. It may come for any text of 262,144 bytes at most.
pub fn read_to_check(alloc: Global, bytes: &[u8]) -> Result<ToCheck, ReadFault>
    ensures { Reports result (Ok (text_checked bytes.now)) }
{
    match value_of(alloc, bytes) {
        Ok(value) => to_check_of(alloc, &value),
        Err(fault) => without_value(fault),
    }
}
