//! An order in which pairs lead on, found by taking nodes that nothing leads to any more.

ghost use Rattle.std.specs.Prelude.{◌≡◌, ◌<◌, ◌+◌, ◌-◌, ℕ, List, [], ◌∷◌, ◌++◌, Contains, IfOk};
ghost use Rattle.std.specs.Prelude.{OnOk, Some, None};
ghost use Rattle.std.specs.BTreeMap.{btree_map_len, get, IsEmpty, Updates};
ghost use Rattle.plant_trace.specs.Nodes.{node_cmp};
ghost use Rattle.plant_trace.specs.NodeIndexes.{ArePositions, Grows, IsNumbering, RiseIfAcyclic};
ghost use Rattle.plant_trace.specs.Reach.{Lists};
ghost use Rattle.plant_trace.specs.Waiting.{AreDistinct, AreSoMany, AreWaiting, Awaits, HasCount};
ghost use Rattle.plant_trace.specs.Waiting.{HasCounts, IsMentioned};

use crate::edges::Edges;
use crate::indexed::Indexed;
use crate::node::Node;
use crate::seen::list_of;
use std::alloc::{AllocError, Global};
use std::collections::{BTreeMap, BTreeSet};

/// Positions of nodes in a list in which each node that nothing leads to is. The only error is that memory
/// was refused.
///
/// No two nodes have one position, and each position is below the number of nodes that have one: a node is taken once,
/// however many ways lead to it. Where there is no cycle, each pair leads to a later position.
pub fn positions_of(
    alloc: Global,
    pairs: &[(Node, Node)],
) -> Result<BTreeMap<Node, usize>, AllocError>
    ensures places { IfOk result (ArePositions pairs.now) }
    ensures once { IfOk result (IsNumbering pairs.now) }
    ensures rises { IfOk result (RiseIfAcyclic pairs.now) }
{
    let mut source = Indexed::new(alloc, pairs)?;
    let nodes = nodes_of(alloc, pairs)?;
    let mut left = BTreeMap::new(alloc);
    let mut ready = Vec::new(alloc);
    count_all(&mut source, &mut left, &mut ready, &nodes)?;
    let mut positions = BTreeMap::new(alloc);
    let mut at = 0;
    'taken: while at < ready.len() {
        assign(&mut positions, ready[at], at)?;
        let node = ready[at];
        take_after(&mut source, &mut left, &mut ready, node)?;
        at += 1;
    }
    Ok(positions)
}

/// Notes the position of a node.
fn assign(positions: &mut BTreeMap<Node, usize>, node: Node, at: usize) -> Result<(), AllocError>
    ensures put { OnOk result (Updates node_cmp positions.old positions.new node (Some at)) }
    ensures len { get node_cmp positions.old node ≡ None →
        OnOk result (btree_map_len positions.new ≡ btree_map_len positions.old + 1) }
{
    positions.insert(node, at)?;
    Ok(())
}

/// The ends of the pairs, strictly ascending.
fn nodes_of(alloc: Global, pairs: &[(Node, Node)]) -> Result<Vec<Node>, AllocError>
    ensures { IfOk result (λ nodes. Lists (IsMentioned pairs.now) nodes.items) }
{
    let mut nodes = BTreeSet::new(alloc);
    for pair in pairs {
        nodes.insert(pair.0)?;
        nodes.insert(pair.1)?;
    }
    let list = list_of(alloc, &nodes)?;
    Ok(list)
}

/// Notes of each node how many lead to it, or that none does.
fn count_all(
    source: &mut Indexed,
    left: &mut BTreeMap<Node, usize>,
    ready: &mut Vec<Node>,
    nodes: &[Node],
) -> Result<(), AllocError>
    ensures same { source.new.pairs.now ≡ source.old.pairs.now }
    ensures waiting { IsEmpty left.old → ready.old.items ≡ [] → AreDistinct nodes.now →
        OnOk result (AreWaiting (Awaits source.old.pairs.now []) (Contains nodes.now) left.new ready.new.items) }
{
    for node in nodes {
        let count = count_before(source, *node)?;
        wait(left, ready, *node, count)?;
    }
    Ok(())
}

/// How many nodes lead to this one.
fn count_before(source: &mut Indexed, node: Node) -> Result<usize, AllocError>
    ensures same { source.new.pairs.now ≡ source.old.pairs.now }
    ensures counts { IfOk result (AreSoMany (Awaits source.old.pairs.now [] node)) }
{
    let before = source.pred(node)?;
    Ok(before.len())
}

/// Notes how many nodes lead to this one, or that none does.
fn wait(
    left: &mut BTreeMap<Node, usize>,
    ready: &mut Vec<Node>,
    node: Node,
    count: usize,
) -> Result<(), AllocError>
    ensures none { count ≡ 0 → OnOk result
        ((ready.new.items ≡ ready.old.items ++ node ∷ []) × HasCounts left.old left.new) }
    ensures some { 0 < count → OnOk result
        ((ready.new.items ≡ ready.old.items) × HasCount left.old left.new node (Some count)) }
{
    if count == 0 {
        ready.push(node)?;
    } else {
        left.insert(node, count)?;
    }
    Ok(())
}

/// Takes one from the count of each node that comes right after this one.
fn take_after(
    source: &mut Indexed,
    left: &mut BTreeMap<Node, usize>,
    ready: &mut Vec<Node>,
    node: Node,
) -> Result<(), AllocError>
    ensures same { source.new.pairs.now ≡ source.old.pairs.now }
    ensures grows { OnOk result (Grows ready.old.items ready.new.items) }
    ensures waiting { (taken : List Node)
        → AreWaiting (Awaits source.old.pairs.now taken) (IsMentioned source.old.pairs.now) left.old ready.old.items
        → (Contains taken node → ⊥)
        → OnOk result (AreWaiting (Awaits source.old.pairs.now (taken ++ node ∷ [])) (IsMentioned source.old.pairs.now) left.new ready.new.items) }
{
    let after = source.succ(node)?;
    for next in &after {
        count_down(left, ready, *next)?;
    }
    Ok(())
}

/// Takes one from the count of a node. One that has none stays as it is.
fn count_down(
    left: &mut BTreeMap<Node, usize>,
    ready: &mut Vec<Node>,
    node: Node,
) -> Result<(), AllocError>
    ensures none { get node_cmp left.old node ≡ None → OnOk result
        ((ready.new.items ≡ ready.old.items) × HasCounts left.old left.new) }
    ensures last { get node_cmp left.old node ≡ Some 1 → OnOk result
        ((ready.new.items ≡ ready.old.items ++ node ∷ []) × HasCount left.old left.new node None) }
    ensures more { (n : ℕ) → get node_cmp left.old node ≡ Some n → 1 < n → OnOk result
        ((ready.new.items ≡ ready.old.items) × HasCount left.old left.new node (Some (n - 1))) }
    ensures grows { OnOk result (Grows ready.old.items ready.new.items) }
{
    match left.remove(&node) {
        Some(count) => wait(left, ready, node, count.saturating_sub(1)),
        None => Ok(()),
    }
}
