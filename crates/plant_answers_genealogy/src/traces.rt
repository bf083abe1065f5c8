// What is answered of a trace.
ghost use Rattle.std.specs.Prelude.{◌≡◌, IfOk, None, not};
ghost use Rattle.plant_trace.specs.ReadOnly.{ReadOnly};
ghost use Rattle.plant_view.specs.{refuse};
ghost use Rattle.plant_answers_genealogy.specs.Traces.{trace_of, missing, answer_trace};

use plant_base::{Items, Refusal};
use plant_questions::Answer;
use plant_trace::{Direction, Node, closure};
use plant_view::{View, ViewFault, lookup};
use std::alloc::Global;

/// What was made from a node, or what it was made from.
pub fn trace_answer<V: View>(
    alloc: Global,
    view: &mut V,
    direction: Direction,
    start: Node,
) -> Result<Answer, ViewFault<V::Fault>>
    ensures { ReadOnly V.Edges view.old view.new
        (IfOk result (λ a. a ≡ answer_trace (V.state view.old) direction start
        (missing (V.state view.old) start))) }
{
    if let Some(refusal) = missing(view, start)? {
        return Ok(Answer::Unknown(refusal));
    }
    Ok(Answer::Trace(Items::new(trace(alloc, view, direction, start)?)))
}

/// The refusal of a lot or batch that isn't there.
pub(crate) fn missing<V: View>(
    view: &mut V,
    node: Node,
) -> Result<Option<Refusal>, ViewFault<V::Fault>>
    ensures { ReadOnly V.Edges view.old view.new
        (IfOk result (λ refusal. refusal ≡ missing (V.state view.old) node)) }
{
    match node {
        Node::Lot(lot) => {
            let row = lookup::lot(view, lot)?;
            Ok(unless(row.is_some(), Refusal::UnknownLot))
        }
        Node::Batch(batch) => {
            let there = lookup::is_batch(view, batch)?;
            Ok(unless(there, Refusal::UnknownBatch))
        }
    }
}

// The refusal of what isn't there.
fn unless(there: bool, refusal: Refusal) -> Option<Refusal>
    ensures { result ≡ refuse (not there) refusal None }
{
    if there { None } else { Some(refusal) }
}

/// What the least relation reaches from a node, lots before batches, each ascending.
pub(crate) fn trace<V: View>(
    alloc: Global,
    view: &mut V,
    direction: Direction,
    start: Node,
) -> Result<Vec<Node>, ViewFault<V::Fault>>
    ensures { ReadOnly V.Edges view.old view.new
        (IfOk result (λ nodes. nodes.items ≡ trace_of (V.state view.old) direction start)) }
{
    let nodes = closure(alloc, view, start, direction)?;
    Ok(nodes)
}
