// What was booked along the edges between the nodes of a genealogy.
ghost use Rattle.std.specs.Prelude.{◌≡◌, ◌++◌, List, IfOk, OnOk, Some, map};
ghost use Rattle.std.specs.BTreeMap.{Updates, get, keys};
ghost use Rattle.std.specs.List.{filter_map};
ghost use Rattle.std.specs.List.Sorted.{IsStrictlySortedBy};
ghost use Rattle.plant_base.specs.{edge_order};
ghost use Rattle.plant_trace.specs.{node_cmp, Node};
ghost use Rattle.plant_trace.specs.ReadOnly.{ReadOnly};
ghost use Rattle.plant_view.specs.DecisionInvariant.{DecisionInvariant};
ghost use Rattle.plant_answers_genealogy.specs.Booked.{Fits, IsSetOf, booked_at, bookings_around};
ghost use Rattle.plant_answers_genealogy.specs.Booked.{movements_at, sum_with, summed, reported_at};
ghost use Rattle.plant_answers_genealogy.specs.Genealogy.{edges_between};

use crate::bookings::push_found;
use plant_base::{EdgeKind, EdgeRow, Movement};
use plant_questions::{BookedEdge, Worklists, movements_into};
use plant_trace::Node;
use plant_view::{ViewFault, edge_row, ends, lookup};
use std::alloc::{AllocError, Global};
use std::collections::{BTreeMap, BTreeSet};

/// The edges between ascending nodes, each with the amounts of all movements that make it.
pub(crate) fn edges_between<V: Worklists>(
    alloc: Global,
    view: &mut V,
    nodes: &[Node],
) -> Result<Vec<BookedEdge>, ViewFault<V::Fault>>
    ensures { ReadOnly V.Edges view.old view.new
        (DecisionInvariant (V.state view.old) → IsStrictlySortedBy node_cmp nodes.now
        → IfOk result (λ v. v.items ≡ edges_between (V.state view.old).movements nodes.now)) }
{
    let bookings = bookings_around(alloc, view, nodes)?;
    let rows = sums_of(alloc, bookings.as_slice())?;
    Ok(rows)
}

// ---- bookings

// What is booked along the edges that lead from one of the nodes to another, by the movements of one node after the other.
fn bookings_around<V: Worklists>(
    alloc: Global,
    view: &mut V,
    nodes: &[Node],
) -> Result<Vec<BookedEdge>, ViewFault<V::Fault>>
    ensures { ReadOnly V.Edges view.old view.new
        (IfOk result (λ v. v.items ≡ bookings_around (V.state view.old).movements nodes.now)) }
{
    let Ok(among) = set_of(alloc, nodes) else {
        return Err(ViewFault::Memory);
    };
    let mut rows = Vec::new(alloc);
    for node in nodes {
        let movements = movements_at(view, *node)?;
        if push_bookings(&mut rows, &among, node, movements.as_slice()).is_err() {
            return Err(ViewFault::Memory);
        }
    }
    Ok(rows)
}

fn set_of(alloc: Global, nodes: &[Node]) -> Result<BTreeSet<Node>, AllocError>
    ensures { IfOk result (IsSetOf nodes.now) }
{
    let mut among = BTreeSet::new(alloc);
    for node in nodes {
        among.insert(*node)?;
    }
    Ok(among)
}

// The movements of a batch, or those that bring something to a lot from another one: so of a lot that was split again and again only
// what it came of is read.
fn movements_at<V: Worklists>(
    view: &mut V,
    node: Node,
) -> Result<Vec<Movement>, ViewFault<V::Fault>>
    ensures { ReadOnly V.Edges view.old view.new (IfOk result (λ v. v.items ≡ movements_at (V.state view.old) node)) }
{
    match node {
        Node::Lot(id) => movements_into(view, id),
        Node::Batch(id) => lookup::batch_movements(view, id),
    }
}

// Adds what the movements book along the edges between nodes of the set that are reported at the node.
fn push_bookings(
    rows: &mut Vec<BookedEdge>,
    among: &BTreeSet<Node>,
    at: &Node,
    movements: &[Movement],
) -> Result<(), AllocError>
    ensures { (nodes : List Node) → IsSetOf nodes among.now → OnOk result (rows.new.items
        ≡ rows.old.items ++ filter_map (booked_at nodes at.now) movements.now) }
{
    for movement in movements {
        push_found(rows, booked_at(among, at, movement))?;
    }
    Ok(())
}

fn booked_at(among: &BTreeSet<Node>, at: &Node, movement: &Movement) -> Option<BookedEdge>
    ensures { (nodes : List Node) → IsSetOf nodes among.now
        → result ≡ booked_at nodes at.now movement.now }
{
    let edge = edge_row(movement)?;
    let (near, far) = ends(&edge);
    if *at == reported_at(&edge) && among.contains(&near) && among.contains(&far) {
        let amount = movement.amount.get();
        return Some(BookedEdge { edge, amount });
    }
    None
}

// The node whose movements book the edge: the batch at one of its ends, or else the lot that it leads to.
fn reported_at(edge: &EdgeRow) -> Node
    ensures { result ≡ reported_at edge.now }
{
    match edge.kind {
        EdgeKind::LotToBatch => Node::Batch(edge.to),
        EdgeKind::BatchToLot => Node::Batch(edge.from),
        EdgeKind::LotToLot => Node::Lot(edge.to),
    }
}

// ---- sums

// Each edge once, with the amounts along it in all, as far as these fit.
fn sums_of(alloc: Global, bookings: &[BookedEdge]) -> Result<Vec<BookedEdge>, AllocError>
    ensures { Fits bookings.now → IfOk result (λ v. v.items ≡ summed bookings.now) }
{
    let mut sums = BTreeMap::new(alloc);
    for booking in bookings {
        add(&mut sums, booking)?;
    }
    listed(alloc, &sums)
}

fn add(sums: &mut BTreeMap<EdgeRow, u64>, booking: &BookedEdge) -> Result<(), AllocError>
    ensures { OnOk result (Updates edge_order sums.old sums.new booking.now.edge
        (Some (sum_with (get edge_order sums.old booking.now.edge) booking.now.amount))) }
{
    let sum = sums.get(&booking.edge).copied().unwrap_or(0);
    sums.insert(booking.edge, sum.saturating_add(booking.amount))?;
    Ok(())
}

// The sums in the order of their edges.
fn listed(alloc: Global, sums: &BTreeMap<EdgeRow, u64>) -> Result<Vec<BookedEdge>, AllocError>
    ensures items { IfOk result
        (λ v. v.items ≡ map (λ p. record { edge = p.0; amount = p.1 }) sums.now.entries) }
    ensures ascending { IsStrictlySortedBy edge_order (keys sums.now) }
{
    sums.iter()
        .map(|(edge, amount)| BookedEdge {
            edge: *edge,
            amount: *amount,
        })
        .collect(alloc)
}
