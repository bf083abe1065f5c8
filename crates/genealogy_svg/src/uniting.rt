//! What is reported, put together: each lot, each batch and each edge once, in their order.
ghost use Rattle.std.specs.Prelude.{◌≡◌, [], Some, None, IfOk, OnOk, if◌then◌else◌};
ghost use Rattle.std.specs.BTreeSet.{insert_key};
ghost use Rattle.std.specs.Map.{values_of};
ghost use Rattle.genealogy_svg.specs.EdgeEnds.{HasEnds};
ghost use Rattle.genealogy_svg.specs.United.{ReportsAs, id_cmp, noted, lots_from, lot_noted};
ghost use Rattle.genealogy_svg.specs.United.{batches_from, edges_from, edge_noted, unit_at};
ghost use Rattle.genealogy_svg.specs.United.{measured, id_of, edge_in, edges_in, picture_with};
ghost use Rattle.genealogy_svg.specs.United.{picture_of};

use crate::model::{Picture, PictureEdge, PictureLot};
use crate::reported::{GraphError, Reported, ReportedEdge, UnitedFault};
use plant_base::{Id, Items, Unit};
use plant_trace::Node;
use std::alloc::{AllocError, Global};
use std::collections::{BTreeMap, BTreeSet};

/// The lots by their ids.
type LotMap = BTreeMap<Id, PictureLot>;

/// The amounts of the edges by where they begin and where they end.
type Amounts = BTreeMap<(Node, Node), u64>;

// ---- what is reported more than once

/// Notes the value of a key, and returns whether there is no other.
fn note<K: Ord + Copy, V: PartialEq + Copy>(
    map: &mut BTreeMap<K, V>,
    key: K,
    value: V,
) -> Result<bool, AllocError>
    ensures { IfOk result (λ fits. noted K.cmp V.eq map.old.entries key value
        ≡ (if fits then Some map.new.entries else None)) }
{
    match map.get(&key) {
        Some(known) => Ok(*known == value),
        None => {
            map.insert(key, value)?;
            Ok(true)
        }
    }
}

fn note_lot(lots: &mut LotMap, lot: PictureLot) -> Result<(), UnitedFault>
    ensures { ReportsAs (λ _. lots.new.entries) result (lot_noted lots.old.entries lot) }
{
    let id = lot.id;
    if note(lots, id, lot)? {
        Ok(())
    } else {
        Err(UnitedFault::Reported(GraphError::Lot(id)))
    }
}

fn note_edge(amounts: &mut Amounts, edge: ReportedEdge) -> Result<(), UnitedFault>
    ensures { ReportsAs (λ _. amounts.new.entries) result (edge_noted amounts.old.entries edge) }
{
    if note(amounts, (edge.from, edge.to), edge.amount)? {
        Ok(())
    } else {
        Err(UnitedFault::Reported(GraphError::Amounts(edge.from, edge.to)))
    }
}

fn note_batch(batches: &mut BTreeSet<Id>, batch: Id) -> Result<(), AllocError>
    ensures { OnOk result (batches.new.keys ≡ insert_key id_cmp batches.old.keys batch) }
{
    batches.insert(batch)?;
    Ok(())
}

// ---- lots, batches and edges, each once

fn lots_of(alloc: Global, reported: &[PictureLot]) -> Result<LotMap, UnitedFault>
    ensures { ReportsAs (λ lots. lots.entries) result (lots_from [] reported.now) }
{
    let mut lots = BTreeMap::new(alloc);
    for lot in reported {
        note_lot(&mut lots, *lot)?;
    }
    Ok(lots)
}

fn batches_of(alloc: Global, reported: &[Id]) -> Result<BTreeSet<Id>, AllocError>
    ensures { IfOk result (λ batches. batches.keys ≡ batches_from [] reported.now) }
{
    let mut batches = BTreeSet::new(alloc);
    for batch in reported {
        note_batch(&mut batches, *batch)?;
    }
    Ok(batches)
}

fn amounts_of(alloc: Global, reported: &[ReportedEdge]) -> Result<Amounts, UnitedFault>
    ensures { ReportsAs (λ amounts. amounts.entries) result (edges_from [] reported.now) }
{
    let mut amounts = BTreeMap::new(alloc);
    for edge in reported {
        note_edge(&mut amounts, *edge)?;
    }
    Ok(amounts)
}

// ---- the units of edges

/// The unit of a lot, none of a batch.
fn unit_at(lots: &LotMap, batches: &BTreeSet<Id>, node: Node) -> Result<Option<Unit>, GraphError>
    ensures { result ≡ unit_at lots.now.entries batches.now.keys node }
{
    match node {
        Node::Lot(id) => match lots.get(&id) {
            Some(lot) => Ok(Some(lot.unit)),
            None => Err(GraphError::Lost(node)),
        },
        Node::Batch(id) => {
            if batches.contains(&id) {
                Ok(None)
            } else {
                Err(GraphError::Lost(node))
            }
        }
    }
}

fn id_of(node: Node) -> Id
    ensures { result ≡ id_of node }
{
    match node {
        Node::Lot(id) | Node::Batch(id) => id,
    }
}

/// The edge with the unit of the lot at its beginning, else of that at its end.
fn measured(
    ends: &(Node, Node),
    amount: u64,
    first: Option<Unit>,
    last: Option<Unit>,
) -> Result<PictureEdge, GraphError>
    ensures { result ≡ measured ends.now amount first last }
{
    match (first, last) {
        (Some(unit), _) | (None, Some(unit)) => Ok(PictureEdge {
            from: ends.0,
            to: ends.1,
            amount,
            unit,
        }),
        (None, None) => Err(GraphError::Batches(id_of(ends.0), id_of(ends.1))),
    }
}

fn edge_in(
    lots: &LotMap,
    batches: &BTreeSet<Id>,
    ends: &(Node, Node),
    amount: u64,
) -> Result<PictureEdge, GraphError>
    ensures { result ≡ edge_in lots.now.entries batches.now.keys (ends.now, amount) }
{
    match (
        unit_at(lots, batches, ends.0),
        unit_at(lots, batches, ends.1),
    ) {
        (Ok(first), Ok(last)) => measured(ends, amount, first, last),
        (Err(graph_error), _) | (Ok(_), Err(graph_error)) => Err(graph_error),
    }
}

fn edges_in(
    alloc: Global,
    lots: &LotMap,
    batches: &BTreeSet<Id>,
    amounts: &Amounts,
) -> Result<Vec<PictureEdge>, UnitedFault>
    ensures { ReportsAs (λ edges. edges.items) result
        (edges_in lots.now.entries batches.now.keys [] amounts.now.entries) }
{
    let mut edges = Vec::new(alloc);
    for (ends, amount) in amounts.iter() {
        match edge_in(lots, batches, ends, *amount) {
            Ok(edge) => {
                if edges.push(edge).is_err() {
                    return Err(UnitedFault::Memory);
                }
            }
            Err(graph_error) => return Err(UnitedFault::Reported(graph_error)),
        }
    }
    Ok(edges)
}

// ---- the picture

fn lots_in(alloc: Global, lots: &LotMap) -> Result<Vec<PictureLot>, AllocError>
    ensures { IfOk result (λ list. list.items ≡ values_of lots.now.entries) }
{
    lots.values().copied().collect(alloc)
}

fn batches_in(alloc: Global, batches: &BTreeSet<Id>) -> Result<Vec<Id>, AllocError>
    ensures { IfOk result (λ list. list.items ≡ batches.now.keys) }
{
    batches.iter().copied().collect(alloc)
}

fn picture_with(
    alloc: Global,
    lots: &LotMap,
    batches: &BTreeSet<Id>,
    amounts: &Amounts,
) -> Result<Picture, UnitedFault>
    ensures { ReportsAs (λ picture. picture) result
        (picture_with lots.now.entries batches.now.keys amounts.now.entries) }
{
    let edges = edges_in(alloc, lots, batches, amounts)?;
    let lots = lots_in(alloc, lots)?;
    let batches = batches_in(alloc, batches)?;
    Ok(Picture {
        lots: Items::new(lots),
        batches: Items::new(batches),
        edges: Items::new(edges),
    })
}

/// The picture of what is reported: each lot, each batch and each edge once, in their order, and of each edge its unit.
///
/// Each edge of a picture that is made begins and ends at one of its lots or batches.
///
/// `Reported` comes where it makes none, with the first thing that is wrong with it: a lot that is reported twice with
/// differences, then an edge that is reported with two amounts, then an edge that begins or ends at a node that isn't
/// reported, or leads from a batch to a batch. `Memory` comes where memory was refused.
#[tactic(auto, unfolding(crate::specs::United::picture_of))]
pub fn united(alloc: Global, reported: &Reported) -> Result<Picture, UnitedFault>
    ensures picture { ReportsAs (λ picture. picture) result (picture_of reported.now) }
    ensures ends { IfOk result HasEnds }
{
    let lots = lots_of(alloc, reported.lots.as_slice())?;
    let amounts = amounts_of(alloc, reported.edges.as_slice())?;
    let batches = batches_of(alloc, reported.batches.as_slice())?;
    picture_with(alloc, &lots, &batches, &amounts)
}
