//! The layers of nodes: one more than the highest of those that lead to a node.
ghost use Rattle.std.specs.Prelude.{◌≡◌, ◌↔◌, true, Some, IfOk, IfSome, IsSome, IsTrue, OnOk};
ghost use Rattle.std.specs.BTreeMap.{get, Updates};
ghost use Rattle.std.specs.List.{All};
ghost use Rattle.plant_trace.specs.{node_cmp, rank_of, Node};
ghost use Rattle.genealogy_svg.specs.Layers.{edges_to, height, leads, AreSettled, IsLayered};

use crate::model::PictureEdge;
use grouped_rows::{Grouped, Grouping};
use plant_trace::Node;
use std::alloc::AllocError;
use std::collections::BTreeMap;

/// Edges by the nodes where they end.
pub(crate) struct ByEnd;

impl Grouping for ByEnd {
    ghost use Rattle.std.specs.Prelude.{Some};

    type Row = PictureEdge;

    type Key = Node;

    ghost key_of = { λ e. Some e.to };

    fn key(edge: &PictureEdge) -> Option<Node> {
        Some(edge.to)
    }
}

/// The layers of nodes, of those that have one so far.
pub(crate) type Layers = BTreeMap<Node, u32>;

/// The edges that lead to a node.
pub(crate) fn edges_to<'a>(ends: &'a Grouped<'_, ByEnd>, node: &Node) -> &'a [PictureEdge]
    ensures { result.now ≡ edges_to ends.now.rows.now node.now }
{
    ends.at(*node)
}

/// Whether an edge leads from one node to the other.
pub(crate) fn leads(ends: &Grouped<'_, ByEnd>, from: &Node, to: &Node) -> bool
    ensures { result ≡ leads ends.now.rows.now from.now to.now }
{
    edges_to(ends, to).iter().any(|edge| edge.from == *from)
}

/// Whether a node has its layer.
pub(crate) fn is_layered(layers: &Layers, node: &Node) -> bool
    ensures { IsTrue result ↔ IsLayered layers.now node.now }
{
    layers.get(node).is_some()
}

/// One more than the highest layer of the nodes where edges begin, 0 where there is no edge; none where one of these nodes has no layer yet.
fn height_of(layers: &Layers, edges: &[PictureEdge]) -> Result<Option<u32>, AllocError>
    ensures height { IfOk result (λ found. IfSome found (λ h. h ≡ height (rank_of layers.now) edges.now)) }
    ensures all { IfOk result (λ found. IfSome found (λ _. All (λ e. IsLayered layers.now e.from) edges.now)) }
{
    let mut highest = 0u32;
    for edge in edges {
        let Some(layer) = layers.get(&edge.from) else {
            return Ok(None);
        };
        match layer.checked_add(1) {
            Some(above) => highest = highest.max(above),
            None => return Err(AllocError),
        }
    }
    Ok(Some(highest))
}

/// Notes the layer of a node.
fn note(layers: &mut Layers, node: Node, layer: u32) -> Result<(), AllocError>
    ensures { OnOk result (Updates node_cmp layers.old layers.new node (Some layer)) }
{
    layers.insert(node, layer)?;
    Ok(())
}

/// Gives a node its layer, where all that lead to it have theirs, and returns whether it has one now.
pub(crate) fn settle(
    ends: &Grouped<'_, ByEnd>,
    layers: &mut Layers,
    node: &Node,
) -> Result<bool, AllocError>
    ensures settled { AreSettled ends.now.rows.now layers.old → OnOk result (AreSettled ends.now.rows.now layers.new) }
    ensures more { OnOk result ((other : Node) → IsLayered layers.old other → IsLayered layers.new other) }
    ensures has { IfOk result (λ yes. yes ≡ true → IsLayered layers.new node.now) }
{
    if is_layered(layers, node) {
        return Ok(true);
    }
    match height_of(layers, edges_to(ends, node))? {
        Some(height) => {
            note(layers, *node, height)?;
            Ok(true)
        }
        None => Ok(false),
    }
}
