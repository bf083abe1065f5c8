//! Which objects ask what would become of a command.
ghost use Rattle.std.specs.Prelude.{◌≡◌, true, Ok, IfOk};
ghost use Rattle.serde_json.specs.View.{view};
ghost use Rattle.plant_json_in.specs.FormatErrors.{Reports, IsReported};
ghost use Rattle.plant_json_in.specs.Checks.{command_among, command_in, checked_in};
ghost use Rattle.plant_json_in.specs.Checks.{check_of, has_reason};

use crate::commands::command_of;
use crate::fields::exactly;
use crate::format_errors::{FormatError, ReadFault, ShapeError, object};
use crate::members::Member;
use crate::tables::check_members;
use plant_base::Envelope;
use serde_json::Value;
use std::alloc::Global;

/// What is to be checked: of a command, what would become of it.
#[derive(Drop)]
pub enum ToCheck {
    /// A command, with its moment, operator, note and reference.
    Command(Envelope),
    /// What has the shape of no command, and the first thing that is wrong with it.
    BadForm(FormatError),
}

/// The command that an object with `do` is, or its first problem; a question and a check lack `do`.
fn command_among(alloc: Global, value: &Value) -> Result<Envelope, ReadFault>
    ensures { Reports result (command_among (view value.now)) }
{
    if value.get("do").is_some() {
        command_of(alloc, value)
    } else if value.get("ask").is_some() {
        Err(ReadFault::Reported(FormatError::Object(ShapeError::Missing(Member::Do))))
    } else {
        Err(ReadFault::Reported(FormatError::Neither))
    }
}

fn command_in(alloc: Global, value: &Value) -> Result<Envelope, ReadFault>
    ensures { Reports result (command_in (view value.now)) }
{
    if value.as_object().is_some() {
        command_among(alloc, value)
    } else {
        Err(ReadFault::Reported(FormatError::Object(ShapeError::NoObject)))
    }
}

fn checked_as(alloc: Global, value: &Value) -> Result<ToCheck, ReadFault>
    ensures { Reports result (Ok (checked_in (view value.now))) }
{
    match command_in(alloc, value) {
        Ok(envelope) => Ok(ToCheck::Command(envelope)),
        Err(ReadFault::Reported(format_error)) => Ok(ToCheck::BadForm(format_error)),
        Err(ReadFault::Memory) => Err(ReadFault::Memory),
    }
}

/// What is to be checked where a value is given for a command: the command that it is, or the first thing that is wrong with it, which has
/// a text of its own. A question and a check lack `do`.
///
/// The only error is `Memory`: memory was refused while the command's list was read. Nothing is said of the value.
pub fn to_check_of(alloc: Global, value: &Value) -> Result<ToCheck, ReadFault>
    ensures reads { Reports result (Ok (checked_in (view value.now))) }
    ensures reason { IfOk result (λ checked. has_reason checked ≡ true) }
{
    checked_as(alloc, value)
}

fn read_check(alloc: Global, value: &Value) -> Result<ToCheck, ReadFault>
    ensures { Reports result (check_of (view value.now)) }
{
    object(exactly(value, check_members()))?;
    match value.get(Member::Command.name()) {
        Some(command) => to_check_of(alloc, command),
        None => Err(ReadFault::Reported(FormatError::Object(ShapeError::Missing(Member::Command)))),
    }
}

/// What the object asks to check: `{"ask":"check","command":OBJECT}`, whose OBJECT needs to be no command.
///
/// - `Reported`: the object has another shape, and this is the first thing that is wrong with it, which has a text of its own.
/// - `Memory`: memory was refused while the command's list was read. Nothing is said of the object.
///
/// Where its OBJECT is no command, what is wrong with that has a text of its own, too.
pub fn check_of(alloc: Global, value: &Value) -> Result<ToCheck, ReadFault>
    ensures reads { Reports result (check_of (view value.now)) }
    ensures reported { IsReported result }
    ensures reason { IfOk result (λ checked. has_reason checked ≡ true) }
{
    read_check(alloc, value)
}
