//! Which order is the cause that an import is refused.
ghost use Rattle.std.specs.Prelude.{◌≡◌, IfOk, is_none, not, find};
ghost use Rattle.plant_base.specs.{recipe_at, job_at, same};
ghost use Rattle.plant_trace.specs.ReadOnly.{ReadOnly};
ghost use Rattle.plant_view.specs.{is_size_of_recipe};
ghost use Rattle.plant_rules_production.specs.{conflicts, differs, is_same_order, order_named};
ghost use Rattle.plant_rules.specs.Causes.{first_failing, is_bad_order};

use grouped_rows::{Grouped, Grouping};
use plant_base::{Id, Job, OrderRow, Refusal};
use plant_view::{View, ViewFault, is_size_of_recipe, lookup};
use std::alloc::Global;

// The orders of an import by their id.
pub(crate) struct ListedOrders;

impl Grouping for ListedOrders {
    ghost use Rattle.std.specs.Prelude.{Some};

    type Row = OrderRow;

    type Key = Id;

    ghost key_of = { λ o. Some o.order };

    fn key(row: &OrderRow) -> Option<Id> {
        Some(row.order)
    }
}

// The number, counted from 1, of the first order that fails the condition which the refusal names.
pub(crate) fn bad_order<V: View>(
    alloc: Global,
    view: &mut V,
    orders: &[OrderRow],
    refusal: Refusal,
) -> Result<Option<usize>, ViewFault<V::Fault>>
    ensures { ReadOnly V.Edges view.old view.new
        (IfOk result (λ item. item ≡ first_failing (is_bad_order (V.state view.old) orders.now refusal) orders.now)) }
{
    let listed = Grouped::<ListedOrders>::new(alloc, orders)?;
    first_bad_order(view, &listed, orders, refusal)
}

fn first_bad_order<V: View>(
    view: &mut V,
    listed: &Grouped<ListedOrders>,
    orders: &[OrderRow],
    refusal: Refusal,
) -> Result<Option<usize>, ViewFault<V::Fault>>
    ensures { ReadOnly V.Edges view.old view.new
        (IfOk result (λ item. item ≡ first_failing (is_bad_order (V.state view.old) listed.now.rows.now refusal) orders.now)) }
{
    for (index, order) in orders.iter().enumerate() {
        if is_bad_order(view, listed, order, refusal)? {
            return Ok(Some(index + 1));
        }
    }
    Ok(None)
}

fn is_bad_order<V: View>(
    view: &mut V,
    listed: &Grouped<ListedOrders>,
    order: &OrderRow,
    refusal: Refusal,
) -> Result<bool, ViewFault<V::Fault>>
    ensures { ReadOnly V.Edges view.old view.new
        (IfOk result (λ bad. bad ≡ is_bad_order (V.state view.old) listed.now.rows.now refusal order.now)) }
{
    match refusal {
        Refusal::UnknownRecipe => is_unplanned(view, order),
        Refusal::OrderConflict => is_conflict(view, listed, order),
        Refusal::SizeOutOfRange => is_oversize(view, order),
        _ => Ok(false),
    }
}

fn is_unplanned<V: View>(view: &mut V, order: &OrderRow) -> Result<bool, ViewFault<V::Fault>>
    ensures { ReadOnly V.Edges view.old view.new
        (IfOk result (λ bad. bad ≡ is_none (recipe_at (V.state view.old) order.now.recipe order.now.version))) }
{
    let recipe = lookup::recipe(view, order.recipe, order.version)?;
    Ok(recipe.is_none())
}

fn is_conflict<V: View>(
    view: &mut V,
    listed: &Grouped<ListedOrders>,
    order: &OrderRow,
) -> Result<bool, ViewFault<V::Fault>>
    ensures { ReadOnly V.Edges view.old view.new
        (IfOk result (λ bad. bad
        ≡ conflicts listed.now.rows.now (job_at (V.state view.old) order.now.order) order.now)) }
{
    let job = lookup::job(view, order.order)?;
    Ok(differs(order_named(listed, job, order.order), order))
}

fn is_oversize<V: View>(view: &mut V, order: &OrderRow) -> Result<bool, ViewFault<V::Fault>>
    ensures { ReadOnly V.Edges view.old view.new
        (IfOk result (λ bad. bad
        ≡ not (is_size_of_recipe (recipe_at (V.state view.old) order.now.recipe order.now.version) order.now.size))) }
{
    let recipe = lookup::recipe(view, order.recipe, order.version)?;
    Ok(!is_size_of_recipe(recipe, order.size))
}

// ---- conflicts

// The order that an id names: that of the desk's job, or else the first of the list.
fn order_named(orders: &Grouped<ListedOrders>, job: Option<Job>, id: Id) -> Option<OrderRow>
    ensures { result ≡ order_named orders.now.rows.now job id }
{
    match job {
        Some(job) => Some(job.order),
        None => first_of(orders, id),
    }
}

fn first_of(orders: &Grouped<ListedOrders>, id: Id) -> Option<OrderRow>
    ensures { result ≡ find (λ o. same o.order id) orders.now.rows.now }
{
    orders.first(id)
}

fn differs(other: Option<OrderRow>, order: &OrderRow) -> bool
    ensures { result ≡ differs other order.now }
{
    match other {
        Some(other) => !is_same_order(&other, order),
        None => false,
    }
}

fn is_same_order(a: &OrderRow, b: &OrderRow) -> bool
    ensures { result ≡ is_same_order a.now b.now }
{
    a.order == b.order
        && a.recipe == b.recipe
        && a.version == b.version
        && a.size == b.size
        && a.due == b.due
        && a.priority == b.priority
}
