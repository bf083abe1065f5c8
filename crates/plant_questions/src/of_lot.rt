//! The rows of lots.

ghost use Rattle.std.specs.Prelude.{map};
ghost use Rattle.plant_view.specs.{sublot_row};
ghost use Rattle.plant_questions.specs.RisingIds.{lots_rise, sublots_rise, holds_rise};

use crate::page::Page;
use crate::view::Worklists;
use plant_base::{Hold, Id, Lot, Sublot};
use plant_view::ViewFault;

/// A row of a lot: the lot itself, or what is recorded of its id.
pub trait OfLot: Sized + Copy {
    ghost use Rattle.std.specs.Prelude.{◌≡◌, ℕ, Bool, List, IfOk, filter};
    ghost use Rattle.plant_base.specs.{State};
    ghost use Rattle.plant_trace.specs.ReadOnly.{ReadOnly};
    ghost use Rattle.plant_view.specs.DecisionInvariant.{DecisionInvariant};
    ghost use Rattle.plant_questions.specs.Prefetching.{Rise, rows_after};
    ghost use Rattle.plant_questions.specs.Pages.{page_of};

    /// The id of its lot.
    ghost lot_of: { Self → List ℕ };

    /// All such rows of a state.
    ghost all: { State → List Self };

    /// In a consistent state any of them are in the order of their lots.
    ghost rise: { (s : State) (test : Self → Bool) → DecisionInvariant s → Rise lot_of (filter test (all s)) };

    /// The id of its lot.
    fn lot(&self) -> Id
        ensures { result ≡ lot_of self.now };

    /// A page of the rows of the lots that come after one.
    fn page_after<V: Worklists>(
        view: &mut V,
        cursor: Option<Id>,
    ) -> Result<Page<Self>, ViewFault<V::Fault>>
        ensures { ReadOnly V.Edges view.old view.new
            (DecisionInvariant (V.state view.old)
            → IfOk result (λ page. page ≡ page_of (rows_after lot_of cursor (all (V.state view.old))))) };
}

impl OfLot for Lot {
    ghost lot_of = { λ l. l.id };

    ghost all = { λ s. s.lots };

    ghost rise = { lots_rise };

    fn lot(&self) -> Id {
        self.id
    }

    fn page_after<V: Worklists>(
        view: &mut V,
        cursor: Option<Id>,
    ) -> Result<Page<Lot>, ViewFault<V::Fault>> {
        view.lots_after(cursor).map_err(ViewFault::View)
    }
}

impl OfLot for Sublot {
    ghost lot_of = { λ r. r.lot };

    ghost all = { λ s. map (sublot_row s.movements) s.places };

    ghost rise = { sublots_rise };

    fn lot(&self) -> Id {
        self.lot
    }

    fn page_after<V: Worklists>(
        view: &mut V,
        cursor: Option<Id>,
    ) -> Result<Page<Sublot>, ViewFault<V::Fault>> {
        view.sublots_after(cursor).map_err(ViewFault::View)
    }
}

impl OfLot for Hold {
    ghost lot_of = { λ h. h.lot };

    ghost all = { λ s. s.holds };

    ghost rise = { holds_rise };

    fn lot(&self) -> Id {
        self.lot
    }

    fn page_after<V: Worklists>(
        view: &mut V,
        cursor: Option<Id>,
    ) -> Result<Page<Hold>, ViewFault<V::Fault>> {
        view.holds_after(cursor).map_err(ViewFault::View)
    }
}
