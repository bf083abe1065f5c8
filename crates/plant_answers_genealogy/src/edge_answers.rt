// What is answered of the genealogy around a lot or batch.
ghost use Rattle.std.specs.Prelude.{◌≡◌, IfOk, option_map};
ghost use Rattle.plant_base.specs.{State, definition_at, Lot};
ghost use Rattle.plant_trace.specs.ReadOnly.{ReadOnly};
ghost use Rattle.plant_view.specs.{is_blocked};
ghost use Rattle.plant_view.specs.DecisionInvariant.{DecisionInvariant};
ghost use Rattle.plant_answers_genealogy.specs.Genealogy.{answer_edges, genealogy_around, lot_node};
ghost use Rattle.plant_answers_genealogy.specs.Genealogy.{node_answer, node_if};
ghost use Rattle.plant_answers_genealogy.specs.KnownLots.{AreKnown, after_definition, after_lot, after_node};
ghost use Rattle.plant_answers_genealogy.specs.KnownLots.{after_node_if};
ghost use Rattle.plant_answers_genealogy.specs.LotAnswers.{lot_answer};
ghost use Rattle.plant_answers_genealogy.specs.Traces.{missing};
ghost use Rattle.plant_questions.specs.declared.genealogy.NodeAnswer.TheVariants as node;
ghost use Rattle.plant_questions.specs.declared.question.Answer.TheVariants as A;

use crate::around::nodes_around;
use crate::booked::edges_between;
use crate::each_told::{RowOf, each_row};
use crate::known_lots::{KnownLots, known_definition, known_lot, known_row};
use crate::traces::missing;
use plant_base::{Definition, Items, Lot};
use plant_questions::{Answer, Genealogy, LotAnswer, LotNode, NodeAnswer, Worklists};
use plant_trace::{Direction, Node};
use plant_view::{ViewFault, lookup};
use std::alloc::Global;

/// The genealogy around a lot or batch, back or forward.
pub fn edges_answer<V: Worklists>(
    alloc: Global,
    view: &mut V,
    direction: Direction,
    start: Node,
) -> Result<Answer, ViewFault<V::Fault>>
    ensures { ReadOnly V.Edges view.old view.new
        (DecisionInvariant (V.state view.old) → IfOk result (λ a. a ≡ answer_edges (V.state view.old) direction start
        (missing (V.state view.old) start))) }
{
    let refusal = missing(view, start)?;
    match refusal {
        Some(refusal) => Ok(Answer::Unknown(refusal)),
        None => genealogy_answer(alloc, view, direction, &start),
    }
}

fn genealogy_answer<V: Worklists>(
    alloc: Global,
    view: &mut V,
    direction: Direction,
    start: &Node,
) -> Result<Answer, ViewFault<V::Fault>>
    ensures { ReadOnly V.Edges view.old view.new
        (DecisionInvariant (V.state view.old)
        → IfOk result (λ a. a ≡ A.Edges (genealogy_around (V.state view.old) direction start.now))) }
{
    let genealogy = genealogy_around(alloc, view, direction, *start)?;
    Ok(Answer::Edges(genealogy))
}

fn genealogy_around<V: Worklists>(
    alloc: Global,
    view: &mut V,
    direction: Direction,
    start: Node,
) -> Result<Genealogy, ViewFault<V::Fault>>
    ensures { ReadOnly V.Edges view.old view.new
        (DecisionInvariant (V.state view.old)
        → IfOk result (λ g. g ≡ genealogy_around (V.state view.old) direction start)) }
{
    let around = nodes_around(alloc, view, direction, start)?;
    let nodes = each_row(alloc, view, around.as_slice())?;
    let edges = edges_between(alloc, view, around.as_slice())?;
    Ok(Genealogy {
        nodes: Items::new(nodes),
        edges: Items::new(edges),
    })
}

impl RowOf<NodeAnswer> for Node {
    ghost reported = { node_answer };

    ghost known_after = { after_node };

    fn row_of<V: Worklists>(
        &self,
        alloc: Global,
        view: &mut V,
        known: &mut KnownLots,
    ) -> Result<Option<NodeAnswer>, ViewFault<V::Fault>> {
        match self {
            Node::Lot(id) => {
                let lot = known_row(view, known, id)?;
                node_if(alloc, view, known, lot)
            }
            Node::Batch(id) => Ok(Some(NodeAnswer::Batch(*id))),
        }
    }
}

fn node_if<V: Worklists>(
    alloc: Global,
    view: &mut V,
    known: &mut KnownLots,
    lot: Option<Lot>,
) -> Result<Option<NodeAnswer>, ViewFault<V::Fault>>
    ensures { ReadOnly V.Edges view.old view.new
        (DecisionInvariant (V.state view.old) → AreKnown (V.state view.old) known.old
        → IfOk result (λ found. found ≡ node_if (V.state view.old) lot)
        × AreKnown (V.state view.old) known.new
        × IfOk result (λ _. known.new ≡ after_node_if (V.state view.old) known.old lot)) }
{
    let Some(lot) = lot else {
        return Ok(None);
    };
    lot_node(alloc, view, known, &lot)
}

// A lot that is there, with the unit of its definition.
fn lot_node<V: Worklists>(
    alloc: Global,
    view: &mut V,
    known: &mut KnownLots,
    lot: &Lot,
) -> Result<Option<NodeAnswer>, ViewFault<V::Fault>>
    ensures { ReadOnly V.Edges view.old view.new
        (DecisionInvariant (V.state view.old) → AreKnown (V.state view.old) known.old
        → IfOk result (λ found. found ≡ option_map (λ d. node.Lot (lot_node (V.state view.old) lot.now d))
        (definition_at (V.state view.old) lot.now.def))
        × AreKnown (V.state view.old) known.new
        × IfOk result (λ _. known.new ≡ after_lot (V.state view.old) lot.now
        (after_definition (V.state view.old) lot.now.def known.old))) }
{
    let definition = known_definition(view, known, lot.def)?;
    let recalled = lookup::is_blocked(view, lot.id)?;
    let reported = known_lot(alloc, view, known, lot)?;
    Ok(node_of_lot(definition, recalled, &reported))
}

// The node by what was found.
fn node_of_lot(
    definition: Option<Definition>,
    recalled: bool,
    known: &LotAnswer,
) -> Option<NodeAnswer>
    ensures { (s : State) (lot : Lot) → recalled ≡ is_blocked s lot.id → known.now ≡ lot_answer s lot
        → result ≡ option_map (λ d. node.Lot (lot_node s lot d)) definition }
{
    let definition = definition?;
    Some(NodeAnswer::Lot(LotNode {
        lot: known.lot,
        def: known.def,
        unit: definition.unit,
        held: known.held,
        recalled,
        stock: known.stock,
    }))
}
