//! What is known of lots that are asked for one after another, by their ids, with the fault of a decision.

ghost use Rattle.std.specs.Prelude.{◌≡◌, true, false, IfErr, IfOk, IsOk, length, nat_le, slice_get};
ghost use Rattle.plant_base.specs.{lot_at};
ghost use Rattle.plant_trace.specs.ReadOnly.{ReadOnly};
ghost use Rattle.plant_view.specs.{is_held, sublots_of};
ghost use Rattle.plant_view.specs.DecisionInvariant.{DecisionInvariant};
ghost use Rattle.plant_questions.specs.Prefetching.{IsValidPrefetch, IsValidHoldPrefetch};
ghost use Rattle.plant_questions.specs.Prefetching.{IsValidLotPrefetch, IsValidSublotPrefetch};
ghost use Rattle.plant_questions.specs.Prefetching.{asked_for, counted, is_answered, prefetched};
ghost use Rattle.plant_questions.specs.Prefetching.{wants_page, prefetched_holds, prefetched_lots};
ghost use Rattle.plant_questions.specs.Prefetching.{prefetched_sublots};

use crate::of_lot::OfLot;
use crate::prefetch::ReadAhead;
use crate::view::Worklists;
use plant_base::{Hold, Id, Lot, Sublot};
use plant_view::{ViewFault, lookup};
use std::alloc::{AllocError, Global};

/// Reads a page ahead where one is wanted. Else the view is as it was.
fn prefetch_page<V: Worklists, R: OfLot>(
    view: &mut V,
    prefetch: &mut ReadAhead<R>,
    lot: &Id,
) -> Result<(), ViewFault<V::Fault>>
    ensures valid { ReadOnly V.Edges view.old view.new
        (DecisionInvariant (V.state view.old) → IsValidPrefetch R.lot_of (R.all (V.state view.old)) prefetch.old
        → IsValidPrefetch R.lot_of (R.all (V.state view.old)) prefetch.new) }
    ensures ahead { ReadOnly V.Edges view.old view.new
        (DecisionInvariant (V.state view.old) → IfOk result (λ _. prefetch.new
        ≡ prefetched R.lot_of (R.all (V.state view.old)) lot.now prefetch.old)) }
    ensures unasked { wants_page lot.now (asked_for lot.now prefetch.old) ≡ false
        → (view.new ≡ view.old) × (prefetch.new ≡ counted lot.now (asked_for lot.now prefetch.old)) }
    ensures answered { is_answered lot.now prefetch.new ≡ true → IsOk result }
{
    prefetch.ask(lot);
    if !prefetch.wants_page(lot) {
        return Ok(());
    }
    let page = R::page_after(view, prefetch.last)?;
    prefetch.put(page);
    Ok(())
}

/// The lot of this id.
/// `None` where there is none; `View` where the view failed.
pub fn prefetched_lot<V: Worklists>(
    view: &mut V,
    prefetch: &mut ReadAhead<Lot>,
    id: &Id,
) -> Result<Option<Lot>, ViewFault<V::Fault>>
    ensures found { ReadOnly V.Edges view.old view.new
        (DecisionInvariant (V.state view.old) → IsValidLotPrefetch (V.state view.old) prefetch.old
        → IfOk result (λ found. found ≡ lot_at (V.state view.old) id.now)
        × IsValidLotPrefetch (V.state view.old) prefetch.new) }
    ensures ahead { ReadOnly V.Edges view.old view.new
        (DecisionInvariant (V.state view.old)
        → IfOk result (λ _. prefetch.new ≡ prefetched_lots (V.state view.old) id.now prefetch.old)) }
    ensures unasked { is_answered id.now prefetch.old ≡ true → view.new ≡ view.old }
    ensures answered { is_answered id.now prefetch.new ≡ true → IsOk result }
{
    prefetch_page(view, prefetch, id)?;
    match prefetch.run(id) {
        Some(rows) => Ok(first_of(rows)),
        None => lookup::lot(view, *id),
    }
}

/// Whether a lot has a hold.
/// `View` where the view failed.
pub fn prefetched_is_held<V: Worklists>(
    view: &mut V,
    prefetch: &mut ReadAhead<Hold>,
    lot: &Id,
) -> Result<bool, ViewFault<V::Fault>>
    ensures found { ReadOnly V.Edges view.old view.new
        (DecisionInvariant (V.state view.old) → IsValidHoldPrefetch (V.state view.old) prefetch.old
        → IfOk result (λ held. held ≡ is_held (V.state view.old) lot.now)
        × IsValidHoldPrefetch (V.state view.old) prefetch.new) }
    ensures ahead { ReadOnly V.Edges view.old view.new
        (DecisionInvariant (V.state view.old)
        → IfOk result (λ _. prefetch.new ≡ prefetched_holds (V.state view.old) lot.now prefetch.old)) }
    ensures unasked { is_answered lot.now prefetch.old ≡ true → view.new ≡ view.old }
    ensures answered { is_answered lot.now prefetch.new ≡ true → IsOk result }
{
    prefetch_page(view, prefetch, lot)?;
    match prefetch.run(lot) {
        Some(rows) => Ok(has_rows(rows)),
        None => lookup::is_held(view, *lot),
    }
}

/// The sublots of a lot with their stock, by number.
/// `View` where the view failed; `Memory` where memory was refused to the copy of rows that were read ahead.
pub fn prefetched_sublots<V: Worklists>(
    alloc: Global,
    view: &mut V,
    prefetch: &mut ReadAhead<Sublot>,
    lot: &Id,
) -> Result<Vec<Sublot>, ViewFault<V::Fault>>
    ensures found { ReadOnly V.Edges view.old view.new
        (DecisionInvariant (V.state view.old) → IsValidSublotPrefetch (V.state view.old) prefetch.old
        → IfOk result (λ rows. rows.items ≡ sublots_of (V.state view.old) lot.now)
        × IsValidSublotPrefetch (V.state view.old) prefetch.new) }
    ensures ahead { ReadOnly V.Edges view.old view.new
        (DecisionInvariant (V.state view.old)
        → IfOk result (λ _. prefetch.new ≡ prefetched_sublots (V.state view.old) lot.now prefetch.old)) }
    ensures unasked { is_answered lot.now prefetch.old ≡ true → view.new ≡ view.old }
    ensures answered { is_answered lot.now prefetch.new ≡ true → IfErr result (λ e. e ≡ ViewFault.Memory) }
{
    prefetch_page(view, prefetch, lot)?;
    match prefetch.run(lot) {
        Some(rows) => copied(alloc, rows),
        None => lookup::sublots(view, *lot),
    }
}

fn first_of(rows: &[Lot]) -> Option<Lot>
    ensures { result ≡ slice_get rows.now 0 }
{
    rows.first().copied()
}

fn has_rows(rows: &[Hold]) -> bool
    ensures { result ≡ nat_le 1 (length rows.now) }
{
    rows.len() >= 1
}

fn copied<F>(alloc: Global, rows: &[Sublot]) -> Result<Vec<Sublot>, ViewFault<F>>
    ensures rows { IfOk result (λ v. v.items ≡ rows.now) }
    ensures memory { IfErr result (λ e. e ≡ ViewFault.Memory) }
{
    match rows.iter().copied().collect(alloc) {
        Ok(rows) => Ok(rows),
        Err(AllocError) => Err(ViewFault::Memory),
    }
}
