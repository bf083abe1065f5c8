//! The rules that each recall is of a lot that is there, and that recalls and their liftings have moments in their order.

ghost use Rattle.std.specs.Prelude.{◌≡◌, IfOk};
ghost use Rattle.plant_requirements.specs.Recalls.{is_lifted_between, is_timely, is_right_recall};
ghost use Rattle.plant_requirements.specs.Recalls.{are_recalls};

use crate::stock_keys::{Lots, lot_at};
use grouped_rows::Grouped;
use plant_base::{Lifting, Lot, Moment, Recall};
use std::alloc::{AllocError, Global};

/// Whether each recall's lot is there, none is later than the desk's moment, and each that was lifted was lifted no
/// earlier than it was begun and no later than that moment. The only error is that memory was refused.
pub fn are_recalls(
    alloc: Global,
    at: Moment,
    lots: &[Lot],
    recalls: &[Recall],
) -> Result<bool, AllocError>
    ensures { IfOk result (λ b. b ≡ are_recalls at lots.now recalls.now) }
{
    let known = Grouped::<Lots>::new(alloc, lots)?;
    Ok(recalls.iter().all(|r| is_right(at, &known, r)))
}

fn is_right(at: Moment, lots: &Grouped<Lots>, recall: &Recall) -> bool
    ensures { result ≡ is_right_recall at lots.now.rows.now recall.now }
{
    lot_at(lots, recall.lot).is_some() && is_timely(at, recall)
}

/// Whether the recall is no later than the desk's moment, and its lifting is between the two.
pub fn is_timely(at: Moment, recall: &Recall) -> bool
    ensures { result ≡ is_timely at recall.now }
{
    recall.at.get() <= at.get() && is_lifted_between(recall.at, at, recall.lifting)
}

fn is_lifted_between(opened: Moment, at: Moment, lifting: Option<Lifting>) -> bool
    ensures { result ≡ is_lifted_between opened at lifting }
{
    match lifting {
        None => true,
        Some(lifting) => opened.get() <= lifting.at.get() && lifting.at.get() <= at.get(),
    }
}
