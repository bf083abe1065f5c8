//! The movements into a lot, with the fault of a decision: `ViewFault::View` where the view failed.
ghost use Rattle.std.specs.Prelude.{◌≡◌, IfOk};
ghost use Rattle.plant_trace.specs.ReadOnly.{ReadOnly};
ghost use Rattle.plant_questions.specs.Worklists.{movements_into, other_lot};

use crate::view::Worklists;
use plant_base::{Id, Movement, MovementKind};
use plant_view::ViewFault;

/// The movements that bring something to a lot from another sublot, in their order.
/// `View` where the view failed.
pub fn movements_into<V: Worklists>(
    view: &mut V,
    lot: Id,
) -> Result<Vec<Movement>, ViewFault<V::Fault>>
    ensures { ReadOnly V.Edges view.old view.new
        (IfOk result (λ rows. rows.items ≡ movements_into (V.state view.old) lot)) }
{
    view.movements_into(lot).map_err(ViewFault::View)
}

/// The lot that a movement of this lot brings its amount to from another sublot, its own where it was divided.
/// `None` where it brings nothing to another sublot.
pub fn other_lot(kind: MovementKind, lot: Id) -> Option<Id>
    ensures { result ≡ other_lot kind lot }
{
    match kind {
        MovementKind::Divided { .. } => Some(lot),
        MovementKind::Split { to } | MovementKind::Merged { to } => Some(to),
        _ => None,
    }
}
