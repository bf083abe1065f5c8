//! Which slot of its layer each node is wished in: by the middle of what leads to it, then by its name.
use crate::layers::{ByEnd, Layers, edges_to};
use crate::model::PictureEdge;
use grouped_rows::{Grouped, Grouping};
use plant_trace::Node;
use std::alloc::{AllocError, Global};
use std::collections::BTreeMap;

/// The slots of nodes.
pub(crate) type Slots = BTreeMap<Node, u32>;

/// A node and its layer.
#[derive(Clone, Copy)]
struct Layered {
    node: Node,
    layer: u32,
}

/// Nodes by their layers.
struct ByLayer;

impl Grouping for ByLayer {
    ghost use Rattle.std.specs.Prelude.{Some};

    type Row = Layered;

    type Key = u32;

    ghost key_of = { λ l. Some l.layer };

    fn key(row: &Layered) -> Option<u32> {
        Some(row.layer)
    }
}

/// The middle of the slots of the nodes where edges begin, in hundredths; 0 where there is no edge.
fn middle(slots: &Slots, edges: &[PictureEdge]) -> u64 {
    let mut sum = 0u64;
    let mut count = 0u64;
    for edge in edges {
        let slot = slots.get(&edge.from).copied().unwrap_or(0);
        sum = sum.saturating_add(u64::from(slot).saturating_mul(100));
        count = count.saturating_add(1);
    }
    sum.checked_div(count).unwrap_or(0)
}

/// Gives the nodes of a layer their slots.
fn fill(
    alloc: Global,
    ends: &Grouped<'_, ByEnd>,
    slots: &mut Slots,
    layer: &[Layered],
) -> Result<(), AllocError> {
    let mut nodes = Vec::new(alloc);
    for row in layer {
        nodes.push((middle(slots, edges_to(ends, &row.node)), row.node))?;
    }
    nodes.sort()?;
    let mut slot = 0u32;
    for (_, node) in &nodes {
        slots.insert(*node, slot)?;
        slot = slot.saturating_add(1);
    }
    Ok(())
}

/// The nodes with their layers.
fn rows_with_layers(
    alloc: Global,
    layers: &Layers,
    nodes: &[Node],
) -> Result<Vec<Layered>, AllocError> {
    let mut rows = Vec::new(alloc);
    for node in nodes {
        let layer = layers.get(node).copied().unwrap_or(0);
        rows.push(Layered { node: *node, layer })?;
    }
    Ok(rows)
}

/// The slots in which nodes are wished, those of one layer from 0 on. The only error is that memory was refused.
pub(crate) fn wishes_of(
    alloc: Global,
    ends: &Grouped<'_, ByEnd>,
    layers: &Layers,
    nodes: &[Node],
) -> Result<Slots, AllocError> {
    let rows = rows_with_layers(alloc, layers, nodes)?;
    let columns = Grouped::<ByLayer>::new(alloc, &rows)?;
    let mut last = 0u32;
    for row in &rows {
        last = last.max(row.layer);
    }
    let mut slots = BTreeMap::new(alloc);
    for layer in 0..last.saturating_add(1) {
        fill(alloc, ends, &mut slots, columns.at(layer))?;
    }
    Ok(slots)
}
