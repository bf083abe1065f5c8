//! Which item of a command's list is the cause of its refusal.
ghost use Rattle.std.specs.Prelude.{◌≡◌, IfOk};
ghost use Rattle.plant_trace.specs.ReadOnly.{ReadOnly};
ghost use Rattle.plant_view.specs.DecisionInvariant.{DecisionInvariant};
ghost use Rattle.plant_rules.specs.Causes.{item_of};

use crate::bad_parts::bad_part;
use crate::lines::bad_line;
use crate::orders::bad_order;
use plant_base::{Command, Refusal};
use plant_view::{View, ViewFault};
use std::alloc::Global;

// The number, counted from 1, of the first item that fails the condition which the refusal names.
pub(crate) fn item_of<V: View>(
    alloc: Global,
    view: &mut V,
    body: &Command,
    refusal: Refusal,
) -> Result<Option<usize>, ViewFault<V::Fault>>
    ensures { ReadOnly V.Edges view.old view.new
        (DecisionInvariant (V.state view.old)
        → IfOk result (λ item. item ≡ item_of (V.state view.old) body.now refusal)) }
{
    match body {
        Command::ImportOrders(c) => bad_order(alloc, view, c.orders.as_slice(), refusal),
        Command::Merge(c) => bad_part(view, c.parts.as_slice(), refusal),
        Command::AddRecipe(c) => bad_line(view, c, refusal),
        _ => Ok(None),
    }
}
