//! Which objects are commands, and what is wrong with the others: one reading decides both.
ghost use Rattle.std.specs.Prelude.{◌≡◌};
ghost use Rattle.serde_json.specs.View.{view};
ghost use Rattle.plant_base.specs.{is_text, only};
ghost use Rattle.plant_json_in.specs.FormatErrors.{Reports, IsReported};
ghost use Rattle.plant_json_in.specs.Commands.{plain_of, body_of, text_or_empty, id_or_none};
ghost use Rattle.plant_json_in.specs.Commands.{envelope_with, kind_at, command_by};
ghost use Rattle.plant_json_in.specs.Commands.{command_of};

use crate::command_tables::{CommandKind, command_kind, own_of};
use crate::fields::{Field, fields_of, none_other};
use crate::format_errors::{FormatError, ReadFault, ShapeError, object, or_malformed};
use crate::listing::{add_recipe_of, import_orders_of, merge_of};
use crate::plain::{batches_of, blocks_of, goods_of, plans_of};
use crate::tables::shared_members;
use plant_base::{Command, Envelope, Id, Text};
use serde_json::Value;
use std::alloc::Global;

/// The command that the values make, where they alone make one.
fn plain_of(kind: CommandKind, fields: &[Field]) -> Option<Command>
    ensures { result ≡ plain_of kind fields.now }
{
    goods_of(kind, fields)
        .or(blocks_of(kind, fields))
        .or(plans_of(kind, fields))
        .or(batches_of(kind, fields))
}

/// The command that the values make, with its list.
fn body_of(
    alloc: Global,
    kind: CommandKind,
    fields: &[Field],
    value: &Value,
) -> Result<Command, ReadFault>
    ensures { Reports result (body_of kind fields.now (view value.now)) }
{
    match kind {
        CommandKind::Merge => merge_of(alloc, fields, value),
        CommandKind::AddRecipe => add_recipe_of(alloc, fields, value),
        CommandKind::ImportOrders => import_orders_of(alloc, fields, value),
        _ => object(or_malformed(plain_of(kind, fields))),
    }
}

/// A text that may be left out, and is empty then.
fn text_or_empty(field: &Field) -> Option<Text>
    ensures { result ≡ text_or_empty field.now }
{
    match field {
        Field::Text(text) => Some(*text),
        Field::Absent => read_text(b""),
        _ => None,
    }
}

fn read_text(bytes: &[u8]) -> Option<Text>
    ensures { result ≡ only is_text bytes.now }
{
    Text::read(bytes)
}

/// An id that may be left out, and is none then.
fn id_or_none(field: &Field) -> Option<Option<Id>>
    ensures { result ≡ id_or_none field.now }
{
    match field {
        Field::Id(id) => Some(Some(*id)),
        Field::Absent => Some(None),
        _ => None,
    }
}

/// The envelope of a command, of the values that each command has.
fn envelope_with(shared: &[Field], body: Command) -> Option<Envelope>
    ensures { result ≡ envelope_with shared.now body }
{
    match shared {
        [
            Field::Moment(at),
            Field::Text(by),
            note,
            reference,
            Field::Chosen,
        ] => Some(Envelope {
            at: *at,
            by: *by,
            note: text_or_empty(note)?,
            reference: id_or_none(reference)?,
            body,
        }),
        _ => None,
    }
}

fn kind_at(value: &Value) -> Option<CommandKind>
    ensures { result ≡ kind_at (view value.now) }
{
    command_kind(value.get("do")?.as_str()?)
}

/// The command of a kind that the object is, with these values that each command has.
fn command_by(
    alloc: Global,
    kind: Option<CommandKind>,
    shared: &[Field],
    value: &Value,
) -> Result<Envelope, ReadFault>
    ensures { Reports result (command_by kind shared.now (view value.now)) }
{
    match kind {
        Some(kind) => {
            let own = own_of(kind);
            let fields = object(fields_of(value, own))?;
            let body = body_of(alloc, kind, fields.as_slice(), value)?;
            object(none_other(value, shared_members(), own))?;
            object(or_malformed(envelope_with(shared, body)))
        }
        None => Err(ReadFault::Reported(FormatError::Object(ShapeError::Malformed))),
    }
}

fn read_command(alloc: Global, value: &Value) -> Result<Envelope, ReadFault>
    ensures { Reports result (command_of (view value.now)) }
{
    let shared = object(fields_of(value, shared_members()))?;
    command_by(alloc, kind_at(value), shared.as_slice(), value)
}

/// The command that the object is, with its moment, operator, note and reference, or its first problem.
///
/// - `Reported`: the object is no command, and this is the first thing that is wrong with it, which has a text of its own.
/// - `Memory`: memory was refused while its list was read. Nothing is said of the object.
pub fn command_of(alloc: Global, value: &Value) -> Result<Envelope, ReadFault>
    ensures reads { Reports result (command_of (view value.now)) }
    ensures reported { IsReported result }
{
    read_command(alloc, value)
}
