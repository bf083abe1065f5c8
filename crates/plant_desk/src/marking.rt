// The marks on a node, found without any that are kept.
ghost use Rattle.std.specs.Prelude.{◌≡◌, IfOk, map, filter};
ghost use Rattle.std.specs.List.{list_any};
ghost use Rattle.plant_base.specs.{is_open};
ghost use Rattle.plant_trace.specs.{node_eq};
ghost use Rattle.plant_trace.specs.ReadOnly.{ReadOnly};
ghost use Rattle.plant_view.specs.{mark_on, recalls_on};
ghost use Rattle.plant_desk.specs.Marking.{reaches_by};

use plant_base::{Mark, Recall};
use plant_trace::{Direction, Edges, Node, TraceFault, closure};
use plant_view::mark_on;
use std::alloc::{AllocError, Global};

// The marks on a node: those of the open recalls that reach it, in the order of the recalls. One trace back from the
// node finds them all, and where none is open there is none.
pub(crate) fn marks_on<E: Edges>(
    alloc: Global,
    edges: &mut E,
    recalls: &[Recall],
    node: Node,
) -> Result<Vec<Mark>, TraceFault<E::Fault>>
    ensures { ReadOnly E.Edges edges.old edges.new
        (IfOk result (λ rows. rows.items ≡ map (λ r. mark_on r.id node)
        (recalls_on recalls.now (E.pairs edges.old) node))) }
{
    if !is_some_open(recalls) {
        return Ok(Vec::new(alloc));
    }
    let before = closure(alloc, edges, node, Direction::Back)?;
    Ok(marks_by(alloc, recalls, node, &before)?)
}

fn is_some_open(recalls: &[Recall]) -> bool
    ensures { result ≡ list_any is_open recalls.now }
{
    recalls.iter().any(|r| r.is_open())
}

// The marks on the node, by what leads to it.
fn marks_by(
    alloc: Global,
    recalls: &[Recall],
    node: Node,
    before: &[Node],
) -> Result<Vec<Mark>, AllocError>
    ensures { IfOk result (λ rows. rows.items ≡ map (λ r. mark_on r.id node)
        (filter (reaches_by before.now node) recalls.now)) }
{
    recalls
        .iter()
        .filter(|r| reaches_by(before, node, r))
        .map(|r| mark_on(r.id, node))
        .collect(alloc)
}

fn reaches_by(before: &[Node], node: Node, recall: &Recall) -> bool
    ensures { result ≡ reaches_by before.now node recall.now }
{
    recall.is_open() && (node == Node::Lot(recall.lot) || has_lot(before, Node::Lot(recall.lot)))
}

fn has_lot(nodes: &[Node], lot: Node) -> bool
    ensures { result ≡ list_any (λ y. node_eq y lot) nodes.now }
{
    nodes.iter().any(|y| *y == lot)
}
