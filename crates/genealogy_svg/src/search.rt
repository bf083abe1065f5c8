//! The layers of all nodes, found along the edges against their direction.
ghost use Rattle.std.specs.Prelude.{◌≡◌, true, IfErr, IfOk, IsErrOf, OnOk};
ghost use Rattle.std.specs.List.{All};
ghost use Rattle.plant_trace.specs.Reach.{Reach};
ghost use Rattle.genealogy_svg.specs.Layers.{AreSettled, HasCircle, HasNode, IsLayered, Leads};

use crate::drawing::LayoutFault;
use crate::layers::{ByEnd, Layers, edges_to, is_layered, leads, settle};
use crate::model::PictureEdge;
use grouped_rows::Grouped;
use plant_trace::Node;
use std::alloc::{AllocError, Global};
use std::collections::{BTreeMap, BTreeSet};

/// A node that waits for those that lead to it, of which so many edges were looked at.
#[derive(Clone, Copy)]
struct WaitingNode {
    node: Node,
    looked_up: usize,
}

/// The nodes that wait, each but the first for the one before it.
#[derive(Drop)]
struct Way {
    waiting: Vec<WaitingNode>,
    nodes: BTreeSet<Node>,
}

impl Way {
    fn new(alloc: Global) -> Self {
        Way {
            waiting: Vec::new(alloc),
            nodes: BTreeSet::new(alloc),
        }
    }

    /// The last one, which is taken off.
    fn pop(&mut self) -> Option<WaitingNode> {
        self.waiting.pop()
    }

    /// Has a node wait, after all others.
    fn push(&mut self, node: &Node, looked_up: usize) -> Result<(), AllocError> {
        self.waiting.push(WaitingNode {
            node: *node,
            looked_up,
        })?;
        self.nodes.insert(*node)?;
        Ok(())
    }

    /// Whether a node waits or has waited.
    fn has(&self, node: &Node) -> bool {
        self.nodes.contains(node)
    }

    /// The nodes that wait after this one, the last first, and this one as the last.
    fn back_to(&self, alloc: Global, node: &Node) -> Result<Vec<Node>, AllocError> {
        let mut nodes = Vec::new(alloc);
        for waiting in self.waiting.iter().rev() {
            nodes.push(waiting.node)?;
            if waiting.node == *node {
                break;
            }
        }
        Ok(nodes)
    }
}

/// Whether each of these nodes leads to the next, and the first begins and ends the way.
fn is_circle(ends: &Grouped<'_, ByEnd>, first: &Node, later: &[Node]) -> bool
    ensures { result ≡ true → Reach (Leads ends.now.rows.now) first.now first.now }
{
    let mut last = *first;
    for node in later {
        if !leads(ends, &last, node) {
            return false;
        }
        last = *node;
    }
    !later.is_empty() && last == *first
}

/// The first edge, from a position on, whose beginning has no layer yet: its position, and where it begins.
fn first_waiting(layers: &Layers, edges: &[PictureEdge], from: usize) -> Option<(usize, Node)> {
    for index in from..edges.len() {
        if !is_layered(layers, &edges[index].from) {
            return Some((index, edges[index].from));
        }
    }
    None
}

/// Goes on from a node that waits: to one that it waits for, or back where it waits for none.
fn descend(
    alloc: Global,
    ends: &Grouped<'_, ByEnd>,
    layers: &mut Layers,
    way: &mut Way,
    waiting: &WaitingNode,
) -> Result<(), LayoutFault>
    ensures settled { AreSettled ends.now.rows.now layers.old → OnOk result (AreSettled ends.now.rows.now layers.new) }
    ensures more { OnOk result ((other : Node) → IsLayered layers.old other → IsLayered layers.new other) }
    ensures circle { IsErrOf result LayoutFault.Circle → HasCircle ends.now.rows.now }
    ensures lost { IfErr result HasNode }
{
    match first_waiting(layers, edges_to(ends, &waiting.node), waiting.looked_up) {
        None => {
            settle(ends, layers, &waiting.node)?;
            Ok(())
        }
        Some((looked_up, node)) => {
            way.push(&waiting.node, looked_up)?;
            wait_for(alloc, ends, way, &node)
        }
    }
}

/// Has the node that waits last wait for this one.
fn wait_for(
    alloc: Global,
    ends: &Grouped<'_, ByEnd>,
    way: &mut Way,
    node: &Node,
) -> Result<(), LayoutFault>
    ensures circle { IsErrOf result LayoutFault.Circle → HasCircle ends.now.rows.now }
    ensures lost { IfErr result HasNode }
{
    if way.has(node) {
        let later = way.back_to(alloc, node)?;
        if is_circle(ends, node, &later) {
            return Err(LayoutFault::Circle);
        }
    }
    way.push(node, 0)?;
    Ok(())
}

/// Gives a node its layer, and those that lead to it before.
fn layer_node(
    alloc: Global,
    ends: &Grouped<'_, ByEnd>,
    layers: &mut Layers,
    node: &Node,
) -> Result<(), LayoutFault>
    ensures settled { AreSettled ends.now.rows.now layers.old → OnOk result (AreSettled ends.now.rows.now layers.new) }
    ensures more { OnOk result ((other : Node) → IsLayered layers.old other → IsLayered layers.new other) }
    ensures has { OnOk result (IsLayered layers.new node.now) }
    ensures circle { IsErrOf result LayoutFault.Circle → HasCircle ends.now.rows.now }
    ensures lost { IfErr result HasNode }
{
    let mut way = Way::new(alloc);
    'steps: for _made in 0..u64::MAX {
        if is_layered(layers, node) {
            return Ok(());
        }
        let waiting = way.pop().unwrap_or(WaitingNode {
            node: *node,
            looked_up: 0,
        });
        descend(alloc, ends, layers, &mut way, &waiting)?;
    }
    Err(LayoutFault::Memory)
}

/// The layers of the nodes, and of all from which edges lead to them.
///
/// `Circle` comes only where the edges lead in a circle, `Memory` where memory was refused, or after 2^64 - 1 steps. No other fault comes.
pub(crate) fn layers_of(
    alloc: Global,
    ends: &Grouped<'_, ByEnd>,
    nodes: &[Node],
) -> Result<Layers, LayoutFault>
    ensures settled { IfOk result (AreSettled ends.now.rows.now) }
    ensures all { IfOk result (λ layers. All (IsLayered layers) nodes.now) }
    ensures circle { IsErrOf result LayoutFault.Circle → HasCircle ends.now.rows.now }
    ensures lost { IfErr result HasNode }
{
    let mut layers = BTreeMap::new(alloc);
    for node in nodes {
        layer_node(alloc, ends, &mut layers, node)?;
    }
    Ok(layers)
}
