//! The lists of commands: the parts of a merge, the lines of a recipe, orders.
ghost use Rattle.std.specs.Prelude.{◌≡◌, Some};
ghost use Rattle.serde_json.specs.View.{view, items_view};
ghost use Rattle.plant_json_in.specs.FormatErrors.{Reports};
ghost use Rattle.plant_json_in.specs.declared.members.Member.TheVariants as m;
ghost use Rattle.plant_json_in.specs.declared.words.RowKind.TheVariants as row;
ghost use Rattle.plant_json_in.specs.Lists.{line_row, item_of, items_from, items_at, part_of};
ghost use Rattle.plant_json_in.specs.Lists.{order_of, line_of};

use crate::Field::{self, Amount, Chosen, Due, Id, Number, Small, Text};
use crate::fields::{exactly, fields_of};
use crate::format_errors::{FormatError, ReadFault, ShapeError, or_malformed};
use crate::members::Member;
use crate::tables::row_own;
use crate::words::{RowKind, line_kind};
use plant_base::{Items, OrderRow, Part, RecipeLine};
use serde_json::Value;
use std::alloc::Global;

/// What a list in a command holds.
pub(crate) trait Item: Sized + Drop {
    ghost use Rattle.std.specs.Prelude.{Option, List};
    ghost use Rattle.serde_json.specs.Data.{Data};
    ghost use Rattle.plant_json_in.specs.declared.fields.Field.{Field};
    ghost use Rattle.plant_json_in.specs.declared.members.Member.{Member};
    ghost use Rattle.plant_json_in.specs.declared.words.RowKind.{RowKind};

    /// The member that has the list.
    ghost list: { Member };

    /// Which row an object is.
    ghost row_at: { Data → Option RowKind };

    /// The one that a row's values make.
    ghost make: { RowKind → List Field → Option Self };

    /// The member that has the list.
    fn list() -> Member
        ensures { result ≡ list };

    /// Which row an object is.
    fn row_at(value: &Value) -> Option<RowKind>
        ensures { result ≡ row_at (view value.now) };

    /// The one that a row's values make.
    fn make(row: RowKind, fields: &[Field]) -> Option<Self>
        ensures { result ≡ make row fields.now };
}

impl Item for Part {
    ghost list = { m.Parts };

    ghost row_at = { λ d. Some row.Part };

    ghost make = { part_of };

    fn list() -> Member {
        Member::Parts
    }

    fn row_at(_value: &Value) -> Option<RowKind> {
        Some(RowKind::Part)
    }

    fn make(row: RowKind, fields: &[Field]) -> Option<Part> {
        match (row, fields) {
            (RowKind::Part, &[Id(lot), Number(sub), Amount(amount)]) => {
                Some(Part { lot, sub, amount })
            }
            _ => None,
        }
    }
}

impl Item for OrderRow {
    ghost list = { m.Orders };

    ghost row_at = { λ d. Some row.Order };

    ghost make = { order_of };

    fn list() -> Member {
        Member::Orders
    }

    fn row_at(_value: &Value) -> Option<RowKind> {
        Some(RowKind::Order)
    }

    fn make(row: RowKind, fields: &[Field]) -> Option<OrderRow> {
        match (row, fields) {
            (
                RowKind::Order,
                &[
                    Id(order),
                    Id(recipe),
                    Number(version),
                    Amount(size),
                    Due(due),
                    Small(priority),
                ],
            ) => Some(OrderRow {
                order,
                recipe,
                version,
                size,
                due,
                priority,
            }),
            _ => None,
        }
    }
}

impl Item for RecipeLine {
    ghost list = { m.Lines };

    ghost row_at = { line_row };

    ghost make = { line_of };

    fn list() -> Member {
        Member::Lines
    }

    fn row_at(value: &Value) -> Option<RowKind> {
        line_kind(value.get("kind")?.as_str()?)
    }

    fn make(row: RowKind, fields: &[Field]) -> Option<RecipeLine> {
        match (row, fields) {
            (RowKind::In, &[Chosen, Id(def), Amount(amount)]) => {
                Some(RecipeLine::In { def, amount })
            }
            (RowKind::Out, &[Chosen, Id(def), Amount(amount)]) => {
                Some(RecipeLine::Out { def, amount })
            }
            (RowKind::Parameter, &[Chosen, Id(name), Text(value)]) => {
                Some(RecipeLine::Parameter { name, value })
            }
            (RowKind::Phase, &[Chosen, Id(unit_procedure), Id(operation), Id(phase)]) => Some(
                RecipeLine::Phase {
                    unit_procedure,
                    operation,
                    phase,
                },
            ),
            _ => None,
        }
    }
}

/// The item of a list that a value is, or its first flaw.
fn item_of<T: Item>(value: &Value) -> Result<T, ShapeError>
    ensures { result ≡ item_of T.make T.row_at (view value.now) }
{
    if value.as_object().is_none() {
        return Err(ShapeError::NoObject);
    }
    match T::row_at(value) {
        Some(row) => {
            let fields = exactly(value, row_own(row))?;
            or_malformed(T::make(row, fields.as_slice()))
        }
        None => {
            fields_of(value, &[Member::Kind])?;
            Err(ShapeError::Malformed)
        }
    }
}

/// The items of a list, or the problem of the first that has one.
fn items_of<T: Item>(alloc: Global, values: &[Value]) -> Result<Items<T>, ReadFault>
    ensures { Reports result (items_from T.make T.row_at T.list 1 (items_view values.now)) }
{
    let list = T::list();
    let mut items = Vec::new(alloc);
    let mut number = 1;
    for value in values {
        match item_of(value) {
            Ok(item) => match items.push(item) {
                Ok(()) => number += 1,
                Err(_) => return Err(ReadFault::Memory),
            },
            Err(shape_error) => return Err(ReadFault::Reported(FormatError::Item {
                list,
                number,
                shape_error,
            })),
        }
    }
    Ok(Items::new(items))
}

/// The items of the command's list, or the problem of the first that has one.
pub(crate) fn items_at<T: Item>(alloc: Global, value: &Value) -> Result<Items<T>, ReadFault>
    ensures { Reports result (items_at T.make T.row_at T.list (view value.now)) }
{
    match value.get(T::list().name()).and_then(Value::as_array) {
        Some(values) => items_of(alloc, values),
        None => Err(ReadFault::Reported(FormatError::Object(ShapeError::Breaks(T::list())))),
    }
}
