//! What is reported of each of many lots or nodes, one after the other.
ghost use Rattle.std.specs.Prelude.{◌≡◌, IfOk, fold};
ghost use Rattle.std.specs.List.{filter_map};
ghost use Rattle.plant_trace.specs.ReadOnly.{ReadOnly};
ghost use Rattle.plant_view.specs.DecisionInvariant.{DecisionInvariant};
ghost use Rattle.plant_answers_genealogy.specs.KnownLots.{AreKnown};

use crate::bookings::push_found;
use crate::known_lots::KnownLots;
use plant_questions::Worklists;
use plant_view::ViewFault;
use std::alloc::Global;

/// A lot or node of which a row may be reported.
pub trait RowOf<R>: Sized {
    ghost use Rattle.std.specs.Prelude.{◌≡◌, Option, IfOk};
    ghost use Rattle.plant_base.specs.{State};
    ghost use Rattle.plant_trace.specs.ReadOnly.{ReadOnly};
    ghost use Rattle.plant_view.specs.DecisionInvariant.{DecisionInvariant};
    ghost use Rattle.plant_answers_genealogy.specs.KnownLots.{AreKnown};
    ghost use Rattle.plant_answers_genealogy.specs.declared.known_lots.KnownLots.{KnownLots};

    /// What a state reports of it.
    ghost reported: { State → Self → Option R };

    /// What is known of lots after it, by what was known before.
    ghost known_after: { State → KnownLots → Self → KnownLots };

    /// What is reported of it, by what was read ahead of lots.
    fn row_of<V: Worklists>(
        &self,
        alloc: Global,
        view: &mut V,
        known: &mut KnownLots,
    ) -> Result<Option<R>, ViewFault<V::Fault>>
        ensures { ReadOnly V.Edges view.old view.new
            (DecisionInvariant (V.state view.old) → AreKnown (V.state view.old) known.old
            → IfOk result (λ found. found ≡ reported (V.state view.old) self.now)
            × AreKnown (V.state view.old) known.new
            × IfOk result (λ _. known.new ≡ known_after (V.state view.old) known.old self.now)) };
}

/// What is reported of each that has something to report, in their order.
pub fn each_row<R: Drop, T: RowOf<R>, V: Worklists>(
    alloc: Global,
    view: &mut V,
    items: &[T],
) -> Result<Vec<R>, ViewFault<V::Fault>>
    ensures { ReadOnly V.Edges view.old view.new
        (DecisionInvariant (V.state view.old)
        → IfOk result (λ v. v.items ≡ filter_map (T.reported (V.state view.old)) items.now)) }
{
    let mut known = KnownLots::new(alloc);
    rows_of_each(alloc, view, &mut known, items)
}

// The same, by what was known before: what is known after one item is known at the next.
fn rows_of_each<R: Drop, T: RowOf<R>, V: Worklists>(
    alloc: Global,
    view: &mut V,
    known: &mut KnownLots,
    items: &[T],
) -> Result<Vec<R>, ViewFault<V::Fault>>
    ensures { ReadOnly V.Edges view.old view.new
        (DecisionInvariant (V.state view.old) → AreKnown (V.state view.old) known.old
        → IfOk result (λ v. (v.items ≡ filter_map (T.reported (V.state view.old)) items.now)
        × (known.new ≡ fold (T.known_after (V.state view.old)) known.old items.now))) }
{
    let mut rows = Vec::new(alloc);
    for item in items {
        let found = item.row_of(alloc, view, known)?;
        if push_found(&mut rows, found).is_err() {
            return Err(ViewFault::Memory);
        }
    }
    Ok(rows)
}
