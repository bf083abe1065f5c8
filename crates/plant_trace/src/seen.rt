//! Sets of nodes.

ghost use Rattle.std.specs.Prelude.{◌≡◌, OnOk, IfOk};
ghost use Rattle.std.specs.List.Sorted.{IsStrictlySortedBy};
ghost use Rattle.plant_trace.specs.Nodes.{node_cmp};
ghost use Rattle.plant_trace.specs.Seen.{Adds, Queues};

use crate::node::Node;
use std::alloc::{AllocError, Global};
use std::collections::BTreeSet;

/// Adds nodes to a set.
/// The only error is that memory was refused; some of the nodes may then be in the set.
pub fn note_all(seen: &mut BTreeSet<Node>, nodes: &[Node]) -> Result<(), AllocError>
    ensures { OnOk result (Adds nodes.now seen.old.keys seen.new.keys) }
{
    for node in nodes {
        seen.insert(*node)?;
    }
    Ok(())
}

/// Adds nodes to a set, and those that are new to the end of a queue.
/// The only error is that memory was refused; some of the nodes may then be in the set and in the queue.
pub fn note_new(
    seen: &mut BTreeSet<Node>,
    queue: &mut Vec<Node>,
    nodes: &[Node],
) -> Result<(), AllocError>
    ensures adds { OnOk result (Adds nodes.now seen.old.keys seen.new.keys) }
    ensures queues { OnOk result (Queues seen.old.keys seen.new.keys queue.old.items queue.new.items) }
{
    for node in nodes {
        if seen.insert(*node)? {
            queue.push(*node)?;
        }
    }
    Ok(())
}

/// The nodes of a set, strictly ascending.
/// The only error is that memory was refused.
pub fn list_of(alloc: Global, seen: &BTreeSet<Node>) -> Result<Vec<Node>, AllocError>
    ensures items { IfOk result (λ nodes. nodes.items ≡ seen.now.keys) }
    ensures ascending { IsStrictlySortedBy node_cmp seen.now.keys }
{
    seen.iter().copied().collect(alloc)
}
