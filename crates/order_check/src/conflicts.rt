//! Orders of a file whose id an earlier one has, with other values: an import of the file would be refused.
ghost use Rattle.std.specs.Prelude.{◌≡◌, ◌++◌, IfOk, OnOk, Some};
ghost use Rattle.plant_rules_production.specs.{is_same_order};
ghost use Rattle.order_check.specs.Verdicts.{conflict_in, conflict_text, conflicts_among, first_of};

use plant_base::{Id, OrderRow};
use plant_orders::NumberedOrder;
use std::alloc::{AllocError, Global};
use std::fmt;

/// An order that conflicts with an earlier one.
#[derive(Clone, Copy, Debug, PartialEq, Eq)]
pub(crate) struct Conflict {
    /// The row of the order, from 1 on.
    pub(crate) row: u16,
    /// The first row with this id.
    pub(crate) first: u16,
}

impl fmt::Display for Conflict {
    ghost output = { λ conflict. Some (conflict_text conflict) };

    fn fmt<W: fmt::Write>(&self, f: &mut fmt::Formatter<W>) -> fmt::Result {
        let row = self.row;
        let first = self.first;
        write!(
            f,
            "csv row {row} OrderConflict: row {first} has the same order with other values"
        )
    }
}

/// The first order of an id.
fn first_of(orders: &[NumberedOrder], id: Id) -> Option<NumberedOrder>
    ensures { result ≡ first_of orders.now id }
{
    orders.iter().copied().find(|o| o.order.order == id)
}

/// Whether the two are alike in each field.
fn is_same_order(a: &OrderRow, b: &OrderRow) -> bool
    ensures { result ≡ is_same_order a.now b.now }
{
    a.order == b.order
        && a.recipe == b.recipe
        && a.version == b.version
        && a.size == b.size
        && a.due == b.due
        && a.priority == b.priority
}

/// Adds the conflict of an order to the others, where it differs from the first of its id.
fn add_conflict(
    conflicts: &mut Vec<Conflict>,
    orders: &[NumberedOrder],
    order: NumberedOrder,
) -> Result<(), AllocError>
    ensures { OnOk result (conflicts.new.items ≡ conflicts.old.items ++ conflict_in orders.now order) }
{
    let row = order.row;
    let wanted = order.order;
    match first_of(orders, wanted.order) {
        Some(first) if !is_same_order(&first.order, &wanted) => {
            conflicts.push(Conflict {
                row,
                first: first.row,
            })?;
            Ok(())
        }
        _ => Ok(()),
    }
}

/// The conflicts of these orders with all of the file, in the order of their rows. The error is want of memory.
pub(crate) fn conflicts_among(
    alloc: Global,
    orders: &[NumberedOrder],
    some: &[NumberedOrder],
) -> Result<Vec<Conflict>, AllocError>
    ensures { IfOk result (λ conflicts. conflicts.items ≡ conflicts_among orders.now some.now) }
{
    let mut conflicts = Vec::new(alloc);
    for order in some {
        add_conflict(&mut conflicts, orders, *order)?;
    }
    Ok(conflicts)
}
