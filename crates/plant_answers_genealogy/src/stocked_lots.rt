// What is answered of the lots of a definition.
ghost use Rattle.std.specs.Prelude.{◌≡◌, ◌-◌, IfOk, length, option_map, slice_get};
ghost use Rattle.plant_trace.specs.ReadOnly.{ReadOnly};
ghost use Rattle.plant_view.specs.DecisionInvariant.{DecisionInvariant};
ghost use Rattle.plant_view.specs.{is_blocked};
ghost use Rattle.plant_questions.specs.{page_of, lots_of};
ghost use Rattle.plant_answers_genealogy.specs.KnownLots.{after_stocked};
ghost use Rattle.plant_answers_genealogy.specs.StandingLots.{lot_page, if_stocked, stocked_lot};

use crate::each_told::{RowOf, each_row};
use crate::known_lots::{KnownLots, known_lot};
use plant_base::{Id, Items, Lot};
use plant_questions::{LotAnswer, LotPage, StandingLot, Worklists};
use plant_view::{View, ViewFault, lookup};
use std::alloc::Global;

/// A page of the lots of a definition: those of the page that have stock.
pub fn lot_page<V: Worklists>(
    alloc: Global,
    view: &mut V,
    def: Id,
    cursor: Option<Id>,
) -> Result<LotPage, ViewFault<V::Fault>>
    ensures { ReadOnly V.Edges view.old view.new
        (DecisionInvariant (V.state view.old) → IfOk result (λ page. page ≡ lot_page (V.state view.old)
        (page_of (lots_of (V.state view.old) def cursor)))) }
{
    let page = view.lots_of(def, cursor).map_err(ViewFault::View)?;
    let lots = each_row(alloc, view, page.rows.as_slice())?;
    Ok(LotPage {
        lots: Items::new(lots),
        last: last_of(page.rows.as_slice()),
        has_more: page.has_more,
    })
}

fn last_of(lots: &[Lot]) -> Option<Id>
    ensures { result ≡ option_map (λ l. l.id) (slice_get lots.now (length lots.now - 1)) }
{
    match lots.last() {
        Some(lot) => Some(lot.id),
        None => None,
    }
}

impl RowOf<StandingLot> for Lot {
    ghost reported = { stocked_lot };

    ghost known_after = { after_stocked };

    fn row_of<V: Worklists>(
        &self,
        alloc: Global,
        view: &mut V,
        known: &mut KnownLots,
    ) -> Result<Option<StandingLot>, ViewFault<V::Fault>> {
        let found = known_lot(alloc, view, known, self)?;
        standing_if(view, found)
    }
}

// The lot where it has stock, with whether an open recall reaches it.
fn standing_if<V: View>(
    view: &mut V,
    known: LotAnswer,
) -> Result<Option<StandingLot>, ViewFault<V::Fault>>
    ensures { ReadOnly V.Edges view.old view.new
        (IfOk result (λ found. found ≡ if_stocked (record { known = known; recalled = is_blocked (V.state view.old) known.lot }))) }
{
    if known.stock == 0 {
        return Ok(None);
    }
    let recalled = lookup::is_blocked(view, known.lot)?;
    Ok(Some(StandingLot { known, recalled }))
}
