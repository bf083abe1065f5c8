// Where the goods of a lot or batch are.
ghost use Rattle.std.specs.Prelude.{◌≡◌, IfOk};
ghost use Rattle.plant_trace.specs.ReadOnly.{ReadOnly};
ghost use Rattle.plant_view.specs.DecisionInvariant.{DecisionInvariant};
ghost use Rattle.plant_answers_genealogy.specs.Surroundings.{answer_stands, lots_standing, stocked_at};
ghost use Rattle.plant_answers_genealogy.specs.Surroundings.{stocked_if};
ghost use Rattle.plant_answers_genealogy.specs.KnownLots.{AreKnown, after_stocked_at, after_stocked_if};
ghost use Rattle.plant_answers_genealogy.specs.Traces.{missing};

use crate::around::nodes_around;
use crate::each_told::{RowOf, each_row};
use crate::known_lots::{KnownLots, known_row};
use crate::traces::missing;
use plant_base::{Items, Lot};
use plant_questions::{Answer, StandingLot, Worklists};
use plant_trace::{Direction, Node};
use plant_view::ViewFault;
use std::alloc::Global;

/// The lots that have stock, of a lot or batch and all that it leads to.
pub fn stands_answer<V: Worklists>(
    alloc: Global,
    view: &mut V,
    start: Node,
) -> Result<Answer, ViewFault<V::Fault>>
    ensures { ReadOnly V.Edges view.old view.new
        (DecisionInvariant (V.state view.old) → IfOk result (λ a. a ≡ answer_stands (V.state view.old) start
        (missing (V.state view.old) start))) }
{
    if let Some(refusal) = missing(view, start)? {
        return Ok(Answer::Unknown(refusal));
    }
    Ok(Answer::Stands(Items::new(lots_standing(alloc, view, start)?)))
}

fn lots_standing<V: Worklists>(
    alloc: Global,
    view: &mut V,
    start: Node,
) -> Result<Vec<StandingLot>, ViewFault<V::Fault>>
    ensures { ReadOnly V.Edges view.old view.new
        (DecisionInvariant (V.state view.old)
        → IfOk result (λ v. v.items ≡ lots_standing (V.state view.old) start)) }
{
    let nodes = nodes_around(alloc, view, Direction::Forward, start)?;
    each_row(alloc, view, nodes.as_slice())
}

impl RowOf<StandingLot> for Node {
    ghost reported = { stocked_at };

    ghost known_after = { after_stocked_at };

    fn row_of<V: Worklists>(
        &self,
        alloc: Global,
        view: &mut V,
        known: &mut KnownLots,
    ) -> Result<Option<StandingLot>, ViewFault<V::Fault>> {
        match self {
            Node::Lot(id) => {
                let lot = known_row(view, known, id)?;
                stocked_if(alloc, view, known, lot)
            }
            Node::Batch(_) => Ok(None),
        }
    }
}

fn stocked_if<V: Worklists>(
    alloc: Global,
    view: &mut V,
    known: &mut KnownLots,
    lot: Option<Lot>,
) -> Result<Option<StandingLot>, ViewFault<V::Fault>>
    ensures { ReadOnly V.Edges view.old view.new
        (DecisionInvariant (V.state view.old) → AreKnown (V.state view.old) known.old
        → IfOk result (λ found. found ≡ stocked_if (V.state view.old) lot)
        × AreKnown (V.state view.old) known.new
        × IfOk result (λ _. known.new ≡ after_stocked_if (V.state view.old) known.old lot)) }
{
    let Some(lot) = lot else {
        return Ok(None);
    };
    lot.row_of(alloc, view, known)
}
