//! The lookups of a view, each with the fault of a decision: `ViewFault::View` where the view failed.
ghost use Rattle.std.specs.Prelude.{◌≡◌, IfOk, is_some, option_map};
ghost use Rattle.plant_base.specs.{recipe_at, master_lines_of, job_at, batch_at, batch_of};
ghost use Rattle.plant_base.specs.{control_lines_of, lot_at, hold_at, receipt_at, recall_at};
ghost use Rattle.plant_view.specs.Recalls.{marks_on, is_blocked};
ghost use Rattle.plant_trace.specs.ReadOnly.{ReadOnly};
ghost use Rattle.plant_view.specs.Refusals.{is_held};
ghost use Rattle.plant_view.specs.DecisionInvariant.{DecisionInvariant};
ghost use Rattle.plant_view.specs.KeptColumns.{position_of, batch_row, sublots_of};
ghost use Rattle.plant_view.specs.Views.{IsSublotOf, events_of, movements_of, scraps_of};

use crate::fault::ViewFault;
pub use crate::plain_lookups::{class, definition};
use crate::view::View;
use plant_base::{
    Batch, BatchEvent, BatchRow, ControlLine, Hold, Id, Job, Lot, Mark, MasterLine, Movement,
    Position, Recall, Receipt, Recipe, Sublot,
};
use plant_trace::Node;

/// How many commands were accepted, and the moment of the last.
/// `View` where the view failed.
pub fn position<V: View>(view: &mut V) -> Result<Position, ViewFault<V::Fault>>
    ensures { ReadOnly V.Edges view.old view.new (IfOk result (λ r. r ≡ position_of (V.state view.old))) }
{
    view.position().map_err(ViewFault::View)
}

/// The recipe of this id and version.
/// `None` where there is none; `View` where the view failed.
pub fn recipe<V: View>(
    view: &mut V,
    id: Id,
    version: u16,
) -> Result<Option<Recipe>, ViewFault<V::Fault>>
    ensures { ReadOnly V.Edges view.old view.new (IfOk result (λ r. r ≡ recipe_at (V.state view.old) id version)) }
{
    view.recipe(id, version).map_err(ViewFault::View)
}

/// The lines of a recipe, by number.
/// Empty where there are none; `View` where the view failed.
pub fn master_lines<V: View>(
    view: &mut V,
    id: Id,
    version: u16,
) -> Result<Vec<MasterLine>, ViewFault<V::Fault>>
    ensures { ReadOnly V.Edges view.old view.new
        (IfOk result (λ rows. rows.items ≡ master_lines_of (V.state view.old) id version)) }
{
    view.master_lines(id, version).map_err(ViewFault::View)
}

/// The job of the order of this id.
/// `None` where there is none; `View` where the view failed.
pub fn job<V: View>(view: &mut V, order: Id) -> Result<Option<Job>, ViewFault<V::Fault>>
    ensures { ReadOnly V.Edges view.old view.new (IfOk result (λ r. r ≡ job_at (V.state view.old) order)) }
{
    view.job(order).map_err(ViewFault::View)
}

/// The batch of this id, with the columns that are the fold of its events.
/// `None` where there is none; `View` where the view failed.
pub fn batch<V: View>(view: &mut V, id: Id) -> Result<Option<BatchRow>, ViewFault<V::Fault>>
    ensures { ReadOnly V.Edges view.old view.new
        (DecisionInvariant (V.state view.old) → IfOk result (λ r.
        r ≡ option_map (batch_row (V.state view.old).control_lines (V.state view.old).events)
        (batch_at (V.state view.old) id))) }
{
    view.batch(id).map_err(ViewFault::View)
}

/// The batch that the order of this id was released as, if it was.
/// `None` where it wasn't; `View` where the view failed.
pub fn batch_for<V: View>(view: &mut V, order: Id) -> Result<Option<Batch>, ViewFault<V::Fault>>
    ensures { ReadOnly V.Edges view.old view.new (IfOk result (λ r. r ≡ batch_of (V.state view.old) order)) }
{
    view.batch_for(order).map_err(ViewFault::View)
}

/// What happened to a batch, in its order.
/// Empty where there are none; `View` where the view failed.
pub fn events<V: View>(view: &mut V, batch: Id) -> Result<Vec<BatchEvent>, ViewFault<V::Fault>>
    ensures { ReadOnly V.Edges view.old view.new
        (IfOk result (λ rows. rows.items ≡ events_of (V.state view.old) batch)) }
{
    view.events(batch).map_err(ViewFault::View)
}

/// The movements of a batch, what it took and what it brought, in their order.
/// Empty where there are none; `View` where the view failed.
pub fn batch_movements<V: View>(
    view: &mut V,
    batch: Id,
) -> Result<Vec<Movement>, ViewFault<V::Fault>>
    ensures { ReadOnly V.Edges view.old view.new
        (IfOk result (λ rows. rows.items ≡ movements_of (V.state view.old) batch)) }
{
    view.batch_movements(batch).map_err(ViewFault::View)
}

/// The lines of the control recipe of a batch, by number.
/// Empty where there are none; `View` where the view failed.
pub fn control_lines<V: View>(
    view: &mut V,
    batch: Id,
) -> Result<Vec<ControlLine>, ViewFault<V::Fault>>
    ensures { ReadOnly V.Edges view.old view.new
        (IfOk result (λ rows. rows.items ≡ control_lines_of (V.state view.old) batch)) }
{
    view.control_lines(batch).map_err(ViewFault::View)
}

/// Whether a batch has this id.
/// `View` where the view failed.
pub fn is_batch<V: View>(view: &mut V, id: Id) -> Result<bool, ViewFault<V::Fault>>
    ensures { ReadOnly V.Edges view.old view.new
        (IfOk result (λ there. there ≡ is_some (batch_at (V.state view.old) id))) }
{
    match view.batch(id) {
        Ok(row) => Ok(row.is_some()),
        Err(fault) => Err(ViewFault::View(fault)),
    }
}

/// The lot of this id.
/// `None` where there is none; `View` where the view failed.
pub fn lot<V: View>(view: &mut V, id: Id) -> Result<Option<Lot>, ViewFault<V::Fault>>
    ensures { ReadOnly V.Edges view.old view.new (IfOk result (λ r. r ≡ lot_at (V.state view.old) id)) }
{
    view.lot(id).map_err(ViewFault::View)
}

/// The sublot of this lot and number, with its stock.
/// `None` where there is none; `View` where the view failed.
pub fn sublot<V: View>(
    view: &mut V,
    lot: Id,
    number: u16,
) -> Result<Option<Sublot>, ViewFault<V::Fault>>
    ensures { ReadOnly V.Edges view.old view.new
        (DecisionInvariant (V.state view.old) → IfOk result (IsSublotOf (V.state view.old) lot number)) }
{
    match view.sublot(lot, number) {
        Ok(row) => Ok(row),
        Err(fault) => Err(ViewFault::View(fault)),
    }
}

/// The sublots of a lot with their stock, by number.
/// Empty where there are none; `View` where the view failed.
pub fn sublots<V: View>(view: &mut V, lot: Id) -> Result<Vec<Sublot>, ViewFault<V::Fault>>
    ensures { ReadOnly V.Edges view.old view.new
        (DecisionInvariant (V.state view.old)
        → IfOk result (λ rows. rows.items ≡ sublots_of (V.state view.old) lot)) }
{
    view.sublots(lot).map_err(ViewFault::View)
}

/// The movements that scrapped something of a lot, of all its sublots, in their order.
/// Empty where there are none; `View` where the view failed.
pub fn scraps<V: View>(view: &mut V, lot: Id) -> Result<Vec<Movement>, ViewFault<V::Fault>>
    ensures { ReadOnly V.Edges view.old view.new
        (IfOk result (λ rows. rows.items ≡ scraps_of (V.state view.old) lot)) }
{
    view.scraps(lot).map_err(ViewFault::View)
}

/// The hold of this lot and id.
/// `None` where there is none; `View` where the view failed.
pub fn hold<V: View>(view: &mut V, lot: Id, id: Id) -> Result<Option<Hold>, ViewFault<V::Fault>>
    ensures { ReadOnly V.Edges view.old view.new (IfOk result (λ r. r ≡ hold_at (V.state view.old) lot id)) }
{
    view.hold(lot, id).map_err(ViewFault::View)
}

/// Whether a lot has a hold.
/// `View` where the view failed.
pub fn is_held<V: View>(view: &mut V, lot: Id) -> Result<bool, ViewFault<V::Fault>>
    ensures { ReadOnly V.Edges view.old view.new (IfOk result (λ held. held ≡ is_held (V.state view.old) lot)) }
{
    match view.holds(lot) {
        Ok(rows) => Ok(rows.len() >= 1),
        Err(fault) => Err(ViewFault::View(fault)),
    }
}

/// What is kept of the command of this reference.
/// `None` where there is none; `View` where the view failed.
pub fn receipt<V: View>(view: &mut V, reference: Id) -> Result<Option<Receipt>, ViewFault<V::Fault>>
    ensures { ReadOnly V.Edges view.old view.new (IfOk result (λ r. r ≡ receipt_at (V.state view.old) reference)) }
{
    view.receipt(reference).map_err(ViewFault::View)
}

/// The recall of this id.
/// `None` where there is none; `View` where the view failed.
pub fn recall<V: View>(view: &mut V, id: Id) -> Result<Option<Recall>, ViewFault<V::Fault>>
    ensures { ReadOnly V.Edges view.old view.new (IfOk result (λ r. r ≡ recall_at (V.state view.old) id)) }
{
    view.recall(id).map_err(ViewFault::View)
}

/// The marks on a lot or batch, by the recalls' ids.
/// `View` where the view failed.
pub fn marks<V: View>(view: &mut V, node: Node) -> Result<Vec<Mark>, ViewFault<V::Fault>>
    ensures { ReadOnly V.Edges view.old view.new
        (IfOk result (λ rows. rows.items ≡ marks_on (V.state view.old) node)) }
{
    view.marks(node).map_err(ViewFault::View)
}

/// Whether an open recall reaches a lot.
/// `View` where the view failed.
pub fn is_blocked<V: View>(view: &mut V, lot: Id) -> Result<bool, ViewFault<V::Fault>>
    ensures { ReadOnly V.Edges view.old view.new
        (IfOk result (λ blocked. blocked ≡ is_blocked (V.state view.old) lot)) }
{
    match view.marks(Node::Lot(lot)) {
        Ok(marks) => Ok(marks.len() >= 1),
        Err(fault) => Err(ViewFault::View(fault)),
    }
}
