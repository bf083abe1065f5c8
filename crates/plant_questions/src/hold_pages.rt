//! A page of the holds of all lots.
ghost use Rattle.std.specs.Prelude.{◌≡◌, true, List, Some, IfOk};
ghost use Rattle.plant_base.specs.{Hold as Row, hold_order};
ghost use Rattle.plant_trace.specs.ReadOnly.{ReadOnly};
ghost use Rattle.plant_view.specs.DecisionInvariant.{DecisionInvariant};
ghost use Rattle.std.specs.Set.{sorted_merge};
ghost use Rattle.plant_questions.specs.Pages.{page_of};
ghost use Rattle.plant_questions.specs.Worklists.{all_holds, holds_after, holds_on};

use crate::cursors::Cursor;
use crate::merging::merge_pages;
use crate::page::Page;
use crate::view::Worklists;
use plant_base::{Hold, Id};
use plant_view::ViewFault;
use std::alloc::Global;

/// The holds of all lots, by lot and id: what comes after a cursor, or the beginning where none is given.
/// `View` where the view failed, `Memory` where memory was refused.
pub fn all_holds<V: Worklists>(
    alloc: Global,
    view: &mut V,
    cursor: Option<Cursor<Id, Id>>,
) -> Result<Page<Hold>, ViewFault<V::Fault>>
    ensures { ReadOnly V.Edges view.old view.new
        (DecisionInvariant (V.state view.old)
        → IfOk result (λ page. page ≡ page_of (all_holds (V.state view.old) cursor))) }
{
    match cursor {
        None => holds_after(view, None),
        Some(place) => holds_beyond(alloc, view, place),
    }
}

// The further holds of the cursor's lot, and those of the lots after it.
fn holds_beyond<V: Worklists>(
    alloc: Global,
    view: &mut V,
    place: Cursor<Id, Id>,
) -> Result<Page<Hold>, ViewFault<V::Fault>>
    ensures { ReadOnly V.Edges view.old view.new
        (IfOk result (λ page. page ≡ page_of (sorted_merge hold_order true
        (holds_on (V.state view.old) place.first (Some place.second))
        (holds_after (V.state view.old) (Some place.first))))) }
{
    let lot = place.first;
    let near = holds_on(view, place)?;
    let far = holds_after(view, Some(lot))?;
    joined(alloc, &near, &far)
}

// The holds of the cursor's lot that come after it.
fn holds_on<V: Worklists>(
    view: &mut V,
    place: Cursor<Id, Id>,
) -> Result<Page<Hold>, ViewFault<V::Fault>>
    ensures { ReadOnly V.Edges view.old view.new
        (IfOk result (λ page. page
        ≡ page_of (holds_on (V.state view.old) place.first (Some place.second)))) }
{
    view.holds_on(place.first, Some(place.second))
        .map_err(ViewFault::View)
}

// The holds of the lots after one.
fn holds_after<V: Worklists>(
    view: &mut V,
    lot: Option<Id>,
) -> Result<Page<Hold>, ViewFault<V::Fault>>
    ensures { ReadOnly V.Edges view.old view.new
        (IfOk result (λ page. page ≡ page_of (holds_after (V.state view.old) lot))) }
{
    view.holds_after(lot).map_err(ViewFault::View)
}

// The first page of two lists as one.
fn joined<F>(alloc: Global, near: &Page<Hold>, far: &Page<Hold>) -> Result<Page<Hold>, ViewFault<F>>
    ensures { (xs ys : List Row) → near.now ≡ page_of xs → far.now ≡ page_of ys
        → IfOk result (λ page. page ≡ page_of (sorted_merge hold_order true xs ys)) }
{
    match merge_pages(alloc, near, far) {
        Ok(page) => Ok(page),
        Err(_) => Err(ViewFault::Memory),
    }
}
