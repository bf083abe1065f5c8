//! The verdict on a line.
ghost use Rattle.std.specs.Prelude.{◌≡◌, true, IfOk};
ghost use Rattle.line_check.specs.Verdicts.{command_verdict, verdict_of, has_reason};

use plant_base::Command;
use plant_text::{Line, ReadFault, read_line_or_error};
use plant_text_checks::{Reason, command_error_of};
use std::alloc::Global;

/// What a line is.
#[derive(Clone, Copy, Debug, PartialEq, Eq)]
pub(crate) enum Verdict {
    /// It is empty.
    Nothing,
    /// It is a command, whose lists and recipe are well formed.
    Command,
    /// It is a question, or a check, be its command one or none.
    Question,
    /// It is neither, and this is why.
    Bad(Reason),
}

/// Memory was refused.
#[derive(Clone, Copy, Debug, PartialEq, Eq)]
pub(crate) struct MemoryError;

/// The verdict on a command.
fn judge_command(body: &Command) -> Verdict
    ensures { result ≡ command_verdict body.now }
{
    match command_error_of(body) {
        Some(command_error) => Verdict::Bad(Reason::Command(command_error)),
        None => Verdict::Command,
    }
}

/// The verdict on a line, which is given without its LF and the CR before it. Of a bad one it says what is wrong with it, and not only
/// that it is bad.
pub(crate) fn judge(alloc: Global, line: &[u8]) -> Result<Verdict, MemoryError>
    ensures verdict { IfOk result (λ verdict. verdict ≡ verdict_of line.now) }
    ensures reported { IfOk result (λ verdict. has_reason verdict ≡ true) }
{
    if line.is_empty() {
        return Ok(Verdict::Nothing);
    }
    match read_line_or_error(alloc, line) {
        Ok(Line::Command(envelope)) => Ok(judge_command(&envelope.body)),
        Ok(Line::Question(_)) => Ok(Verdict::Question),
        Ok(Line::Check(_)) => Ok(Verdict::Question),
        Err(ReadFault::Reported(format_error)) => Ok(Verdict::Bad(Reason::Shape(format_error))),
        Err(ReadFault::Memory) => Err(MemoryError),
    }
}
