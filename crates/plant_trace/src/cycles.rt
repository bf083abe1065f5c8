//! Cycles.

ghost use Rattle.std.specs.Prelude.{◌≡◌, ◌<◌, ◌↔◌, IfOk, IsTrue, Contains};
ghost use Rattle.plant_trace.specs.Ranks.{rank_of, Rises};
ghost use Rattle.plant_trace.specs.Reach.{IsAcyclic};

use crate::mention_order::rises_by_mention;
use crate::node::Node;
use crate::positions::positions_of;
use std::alloc::{AllocError, Global};
use std::collections::BTreeMap;

/// Whether no node reaches itself along the pairs. Pairs may occur twice and in any order.
/// The only error is that memory was refused.
///
/// It takes about as long as sorting the pairs: they lead on in an order of the nodes, at best in the one in which they
/// are given, or else in the one in which each node is taken once all that lead to it are. Where they lead on in neither,
/// there is a cycle.
pub fn acyclic(alloc: Global, pairs: &[(Node, Node)]) -> Result<bool, AllocError>
    ensures { IfOk result (λ yes. IsTrue yes ↔ IsAcyclic pairs.now) }
{
    if rises_by_mention(alloc, pairs)? {
        return Ok(true);
    }
    let positions = positions_of(alloc, pairs)?;
    Ok(rises(&positions, pairs))
}

/// The position of a node, and 0 where it has none.
fn position_of(positions: &BTreeMap<Node, usize>, node: Node) -> usize
    ensures { result ≡ rank_of positions.now node }
{
    positions.get(&node).copied().unwrap_or(0)
}

/// Whether a pair leads to a later position.
fn leads_on(positions: &BTreeMap<Node, usize>, pair: (Node, Node)) -> bool
    ensures { IsTrue result ↔ (rank_of positions.now pair.0 < rank_of positions.now pair.1) }
{
    position_of(positions, pair.0) < position_of(positions, pair.1)
}

/// Whether each pair leads to a later position.
pub fn rises(positions: &BTreeMap<Node, usize>, pairs: &[(Node, Node)]) -> bool
    ensures { IsTrue result ↔ Rises (rank_of positions.now) pairs.now }
{
    for pair in pairs {
        if !leads_on(positions, *pair) {
            return false;
        }
    }
    true
}

/// Whether a list has a node.
pub fn has(nodes: &[Node], node: Node) -> bool
    ensures { IsTrue result ↔ Contains nodes.now node }
{
    nodes.contains(&node)
}
