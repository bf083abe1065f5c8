//! Commands that have a list.
ghost use Rattle.std.specs.Prelude.{◌≡◌};
ghost use Rattle.serde_json.specs.View.{view};
ghost use Rattle.plant_json_in.specs.FormatErrors.{Reports};
ghost use Rattle.plant_json_in.specs.Listing.{merge_of, add_recipe_of, import_orders_of};

use crate::Field::{self, Amount, Id, List, Number, Text};
use crate::format_errors::{FormatError, ReadFault, ShapeError};
use crate::lists::items_at;
use plant_base::{AddRecipe, Command, Header, ImportOrders, Merge};
use serde_json::Value;
use std::alloc::Global;

/// The merge that the fields and the list of its parts make, or the first problem of a part.
pub(crate) fn merge_of(alloc: Global, fields: &[Field], value: &Value) -> Result<Command, ReadFault>
    ensures { Reports result (merge_of fields.now (view value.now)) }
{
    match fields {
        &[Id(new), Text(place), List] => {
            let parts = items_at(alloc, value)?;
            Ok(Command::Merge(Merge { new, place, parts }))
        }
        _ => Err(ReadFault::Reported(FormatError::Object(ShapeError::Malformed))),
    }
}

/// The recipe that the fields and the list of its lines make, or the first problem of a line.
pub(crate) fn add_recipe_of(
    alloc: Global,
    fields: &[Field],
    value: &Value,
) -> Result<Command, ReadFault>
    ensures { Reports result (add_recipe_of fields.now (view value.now)) }
{
    match fields {
        &[
            Id(recipe),
            Number(version),
            Id(product),
            Amount(base),
            Amount(least),
            Amount(greatest),
            Text(title),
            List,
        ] => {
            let lines = items_at(alloc, value)?;
            Ok(Command::AddRecipe(AddRecipe {
                header: Header {
                    recipe,
                    version,
                    product,
                    base,
                    least,
                    greatest,
                    title,
                },
                lines,
            }))
        }
        _ => Err(ReadFault::Reported(FormatError::Object(ShapeError::Malformed))),
    }
}

/// The import that the list of its orders makes, or the first problem of an order.
pub(crate) fn import_orders_of(
    alloc: Global,
    fields: &[Field],
    value: &Value,
) -> Result<Command, ReadFault>
    ensures { Reports result (import_orders_of fields.now (view value.now)) }
{
    match fields {
        &[List] => {
            let orders = items_at(alloc, value)?;
            Ok(Command::ImportOrders(ImportOrders { orders }))
        }
        _ => Err(ReadFault::Reported(FormatError::Object(ShapeError::Malformed))),
    }
}
