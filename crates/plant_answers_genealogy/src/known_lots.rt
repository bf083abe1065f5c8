// What is known of many lots, which are asked for one after another by their ids.
ghost use Rattle.std.specs.Prelude.{◌≡◌, IfOk, IsSome};
ghost use Rattle.plant_base.specs.{State, definition_at, lot_at};
ghost use Rattle.plant_trace.specs.ReadOnly.{ReadOnly};
ghost use Rattle.plant_view.specs.DecisionInvariant.{DecisionInvariant};
ghost use Rattle.plant_answers_genealogy.specs.KnownLots.{AreKnown, after_definition, after_lot, after_row};
ghost use Rattle.plant_answers_genealogy.specs.KnownLots.{last_one, nothing_known};
ghost use Rattle.plant_answers_genealogy.specs.LotAnswers.{lot_answer};
ghost use Rattle.plant_answers_genealogy.specs.StandingLots.{standing_lot};

use crate::lot_answers::answer_of_lot;
use plant_base::{Definition, Hold, Id, Lot, Sublot};
use plant_questions::{
    LotAnswer, ReadAhead, StandingLot, Worklists, prefetched_is_held, prefetched_lot,
    prefetched_sublots,
};
use plant_view::{ViewFault, lookup};
use std::alloc::Global;

/// What was read ahead of the lots that are asked for, and the definition that was looked up last. Holds are few: whether there
/// are any is asked at once.
#[derive(Drop)]
pub struct KnownLots {
    pub lots: ReadAhead<Lot>,
    pub sublots: ReadAhead<Sublot>,
    pub holds: ReadAhead<Hold>,
    pub definition: Option<Definition>,
}

impl KnownLots {
    /// Nothing yet. No memory is taken.
    pub(crate) fn new(alloc: Global) -> KnownLots
        ensures valid { (s : State) → AreKnown s result }
        ensures nothing { result ≡ nothing_known }
    {
        KnownLots {
            lots: ReadAhead::unread(alloc, false),
            sublots: ReadAhead::unread(alloc, false),
            holds: ReadAhead::unread(alloc, true),
            definition: None,
        }
    }
}

/// The lot of this id.
pub fn known_row<V: Worklists>(
    view: &mut V,
    known: &mut KnownLots,
    id: &Id,
) -> Result<Option<Lot>, ViewFault<V::Fault>>
    ensures { ReadOnly V.Edges view.old view.new
        (DecisionInvariant (V.state view.old) → AreKnown (V.state view.old) known.old
        → IfOk result (λ found. found ≡ lot_at (V.state view.old) id.now)
        × AreKnown (V.state view.old) known.new
        × IfOk result (λ _. known.new ≡ after_row (V.state view.old) id.now known.old)) }
{
    prefetched_lot(view, &mut known.lots, id)
}

/// What is known of a lot that is there.
pub(crate) fn known_lot<V: Worklists>(
    alloc: Global,
    view: &mut V,
    known: &mut KnownLots,
    lot: &Lot,
) -> Result<LotAnswer, ViewFault<V::Fault>>
    ensures { ReadOnly V.Edges view.old view.new
        (DecisionInvariant (V.state view.old) → AreKnown (V.state view.old) known.old
        → IfOk result (λ a. a ≡ lot_answer (V.state view.old) lot.now)
        × AreKnown (V.state view.old) known.new
        × IfOk result (λ _. known.new ≡ after_lot (V.state view.old) lot.now known.old)) }
{
    let held = prefetched_is_held(view, &mut known.holds, &lot.id)?;
    let sublots = prefetched_sublots(alloc, view, &mut known.sublots, &lot.id)?;
    Ok(answer_of_lot(*lot, held, sublots))
}

/// What is known of a lot, and whether an open recall reaches it.
pub fn standing_lot<V: Worklists>(
    alloc: Global,
    view: &mut V,
    known: &mut KnownLots,
    lot: &Lot,
) -> Result<StandingLot, ViewFault<V::Fault>>
    ensures { ReadOnly V.Edges view.old view.new
        (DecisionInvariant (V.state view.old) → AreKnown (V.state view.old) known.old
        → IfOk result (λ a. a ≡ standing_lot (V.state view.old) lot.now)
        × AreKnown (V.state view.old) known.new
        × IfOk result (λ _. known.new ≡ after_lot (V.state view.old) lot.now known.old)) }
{
    let known = known_lot(alloc, view, known, lot)?;
    let recalled = lookup::is_blocked(view, lot.id)?;
    Ok(StandingLot { known, recalled })
}

/// The definition of this id. The last one isn't looked up again.
pub(crate) fn known_definition<V: Worklists>(
    view: &mut V,
    known: &mut KnownLots,
    id: Id,
) -> Result<Option<Definition>, ViewFault<V::Fault>>
    ensures found { ReadOnly V.Edges view.old view.new
        (AreKnown (V.state view.old) known.old
        → IfOk result (λ found. found ≡ definition_at (V.state view.old) id)
        × AreKnown (V.state view.old) known.new
        × IfOk result (λ _. known.new ≡ after_definition (V.state view.old) id known.old)) }
    ensures unasked { IsSome (last_one id known.old.definition) → view.new ≡ view.old }
{
    if let Some(last) = last_one(known.definition, id) {
        return Ok(Some(last));
    }
    let found = lookup::definition(view, id)?;
    known.definition = found;
    let found = known.definition;
    Ok(found)
}

// The definition that was looked up last, where it is of this id.
fn last_one(last: Option<Definition>, id: Id) -> Option<Definition>
    ensures { result ≡ last_one id last }
{
    match last {
        Some(last) if last.id == id => Some(last),
        _ => None,
    }
}
