//! The layout of a picture.
ghost use Rattle.std.specs.Prelude.{◌≡◌, [], IfErr, IfOk, IsErrOf, Ok};
ghost use Rattle.genealogy_svg.specs.Layouts.{position_at, nodes_of, lots_in, batches_in};
ghost use Rattle.genealogy_svg.specs.Layouts.{drawn_edges_in};
ghost use Rattle.genealogy_svg.specs.Layouts.{drawing_in, IsLaidOut, LeadsRight, IsUnpositioned};
ghost use Rattle.genealogy_svg.specs.Layouts.{IsOutside, IsErrorOf, IsLostEnd};
ghost use Rattle.genealogy_svg.specs.Rows.{HasAmounts};
ghost use Rattle.std.specs.List.{All};
ghost use Rattle.genealogy_svg.specs.Layers.{HasCircle};

use crate::drawing::{BoxPosition, Drawing, DrawnBatch, DrawnEdge, DrawnLot, LayoutFault};
use crate::layers::ByEnd;
use crate::model::{Picture, PictureEdge, PictureLot};
use crate::positions::{BoxPositions, positions_of};
use crate::rows::{shows_amounts, with_rows};
use crate::search::layers_of;
use crate::wishes::wishes_of;
use grouped_rows::Grouped;
use plant_base::{Id, Items};
use plant_trace::Node;
use std::alloc::{AllocError, Global};

/// The nodes of a picture, lots before batches.
fn nodes_of(alloc: Global, picture: &Picture) -> Result<Vec<Node>, AllocError>
    ensures { IfOk result (λ nodes. nodes.items ≡ nodes_of picture.now) }
{
    let mut nodes = Vec::new(alloc);
    for lot in picture.lots.as_slice() {
        nodes.push(Node::Lot(lot.id))?;
    }
    for batch in picture.batches.as_slice() {
        nodes.push(Node::Batch(*batch))?;
    }
    Ok(nodes)
}

/// The position of a node.
fn position_at(positions: &BoxPositions, node: Node) -> Result<BoxPosition, LayoutFault>
    ensures position { result ≡ position_at positions.now node }
    ensures unpositioned { IfErr result (IsUnpositioned positions.now) }
{
    match positions.get(&node) {
        Some(position) => Ok(*position),
        None => Err(LayoutFault::Lost(node)),
    }
}

fn lots_in(
    alloc: Global,
    positions: &BoxPositions,
    lots: &[PictureLot],
) -> Result<Vec<DrawnLot>, LayoutFault>
    ensures drawn { IfOk result (λ drawn. lots_in positions.now [] lots.now ≡ Ok drawn.items) }
    ensures unpositioned { IfErr result (IsUnpositioned positions.now) }
    ensures lost { IfErr result (IsErrorOf (lots_in positions.now [] lots.now)) }
{
    let mut drawn = Vec::new(alloc);
    for lot in lots {
        let position = position_at(positions, Node::Lot(lot.id))?;
        if drawn
            .push(DrawnLot {
                lot: *lot,
                position,
            })
            .is_err()
        {
            return Err(LayoutFault::Memory);
        }
    }
    Ok(drawn)
}

fn batches_in(
    alloc: Global,
    positions: &BoxPositions,
    batches: &[Id],
) -> Result<Vec<DrawnBatch>, LayoutFault>
    ensures drawn { IfOk result (λ drawn. batches_in positions.now [] batches.now ≡ Ok drawn.items) }
    ensures unpositioned { IfErr result (IsUnpositioned positions.now) }
    ensures lost { IfErr result (IsErrorOf (batches_in positions.now [] batches.now)) }
{
    let mut drawn = Vec::new(alloc);
    for batch in batches {
        let position = position_at(positions, Node::Batch(*batch))?;
        let batch = DrawnBatch {
            batch: *batch,
            position,
        };
        if drawn.push(batch).is_err() {
            return Err(LayoutFault::Memory);
        }
    }
    Ok(drawn)
}

fn edges_in(
    alloc: Global,
    positions: &BoxPositions,
    edges: &[PictureEdge],
) -> Result<Vec<DrawnEdge>, LayoutFault>
    ensures drawn { IfOk result (λ drawn. drawn_edges_in positions.now [] edges.now ≡ Ok drawn.items) }
    ensures unpositioned { IfErr result (IsUnpositioned positions.now) }
    ensures lost { IfErr result (IsErrorOf (drawn_edges_in positions.now [] edges.now)) }
{
    let mut drawn = Vec::new(alloc);
    for edge in edges {
        let from = position_at(positions, edge.from)?;
        let to = position_at(positions, edge.to)?;
        let edge = DrawnEdge {
            from,
            to,
            amount: edge.amount,
            unit: edge.unit,
            row: None,
        };
        if drawn.push(edge).is_err() {
            return Err(LayoutFault::Memory);
        }
    }
    Ok(drawn)
}

fn drawing_in(
    alloc: Global,
    positions: &BoxPositions,
    picture: &Picture,
) -> Result<Drawing, LayoutFault>
    ensures drawn { IfOk result (λ drawing. drawing_in positions.now picture.now ≡ Ok drawing) }
    ensures unpositioned { IfErr result (IsUnpositioned positions.now) }
    ensures lost { IfErr result (IsErrorOf (drawing_in positions.now picture.now)) }
{
    let lots = lots_in(alloc, positions, picture.lots.as_slice())?;
    let batches = batches_in(alloc, positions, picture.batches.as_slice())?;
    let edges = edges_in(alloc, positions, picture.edges.as_slice())?;
    Ok(Drawing {
        lots: Items::new(lots),
        batches: Items::new(batches),
        edges: Items::new(edges),
    })
}

/// The drawing with its amounts, where the picture is small enough.
fn with_amounts(alloc: Global, picture: &Picture, bare: Drawing) -> Result<Drawing, LayoutFault>
    ensures shown { IfOk result (HasAmounts picture.now bare) }
    ensures error { IfErr result (λ fault. fault ≡ LayoutFault.Memory) }
{
    if !shows_amounts(picture) {
        return Ok(bare);
    }
    let edges = with_rows(alloc, bare.edges.as_slice())?;
    Ok(Drawing {
        lots: bare.lots,
        batches: bare.batches,
        edges: Items::new(edges),
    })
}

/// The drawing of a picture: each node has one position, no two nodes have the same, and each edge leads to the right: a node is
/// one to the right of the rightmost of those that lead to it, and at the left where none does. In a column nodes are wished in the order of the middle of
/// what leads to them, then of their names. Where there are at most [`MOST_WITH_AMOUNTS`](crate::MOST_WITH_AMOUNTS) nodes, each amount has a row in the gap in front of the
/// column where its edge ends, and no two in one gap have the same; in a larger picture they are left out.
///
/// `Circle` comes only where the edges lead in a circle; `Lost` reports a node where an edge begins or ends, and which the picture hasn't; `Memory` where memory was refused.
pub fn layout(alloc: Global, picture: &Picture) -> Result<Drawing, LayoutFault>
    ensures laid { IfOk result (IsLaidOut picture.now) }
    ensures right { IfOk result (λ drawing. All LeadsRight drawing.edges) }
    ensures circle { IsErrOf result LayoutFault.Circle → HasCircle picture.now.edges }
    ensures lost { IfErr result (IsOutside (nodes_of picture.now)) }
    ensures end { IfErr result (IsLostEnd picture.now.edges) }
{
    let nodes = nodes_of(alloc, picture)?;
    let ends = Grouped::<ByEnd>::new(alloc, picture.edges.as_slice())?;
    let layers = layers_of(alloc, &ends, &nodes)?;
    let wishes = wishes_of(alloc, &ends, &layers, &nodes)?;
    let positions = positions_of(alloc, &layers, &wishes, &nodes)?;
    match drawing_in(alloc, &positions, picture) {
        Ok(bare) => with_amounts(alloc, picture, bare),
        Err(fault) => Err(fault),
    }
}
