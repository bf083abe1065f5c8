//! A trace that asks each node once.

ghost use Rattle.std.specs.Prelude.{◌≡◌, List, IfOk};
ghost use Rattle.std.specs.List.Sorted.{IsStrictlySortedBy};
ghost use Rattle.plant_trace.specs.Nodes.{node_cmp};
ghost use Rattle.plant_trace.specs.Reach.{IsReached, Lists};
ghost use Rattle.plant_trace.specs.ReadOnly.{ReadOnly};

use crate::direction::Direction;
use crate::edges::Edges;
use crate::fault::TraceFault;
use crate::node::Node;
use crate::seen::{list_of, note_new};
use crate::steps::ask;
use std::alloc::Global;
use std::collections::BTreeSet;

/// A trace: every node that one or more edges lead to from the start, in the direction, strictly
/// ascending. The start is listed only if it reaches itself.
///
/// What is listed is right where the source is honest as the call ends. The call ends, and the list
/// is strictly ascending, whatever the source does. The source is asked about each node at most once.
///
/// `Edges(fault)` comes as soon as the source answers a fault, and hands it on; `Memory` comes where
/// the list or the set of nodes can't grow. What the source keeps, it keeps after either of them.
pub fn closure<E: Edges>(
    alloc: Global,
    edges: &mut E,
    start: Node,
    direction: Direction,
) -> Result<Vec<Node>, TraceFault<E::Fault>>
    ensures reported { ReadOnly E.Edges edges.old edges.new
        (IfOk result (λ nodes. Lists (IsReached direction (E.pairs edges.old) start) nodes.items)) }

    // of every source
    ensures ascending { IfOk result (λ nodes. IsStrictlySortedBy node_cmp nodes.items) }
{
    let mut seen = BTreeSet::new(alloc);
    let mut queue = Vec::new(alloc);
    let first = ask(edges, start, direction)?;
    note_new(&mut seen, &mut queue, &first)?;
    let mut at = 0;
    'walk: while at < queue.len() {
        let node = queue[at];
        at += 1;
        if node == start {
            continue;
        }
        let next = ask(edges, node, direction)?;
        note_new(&mut seen, &mut queue, &next)?;
    }
    Ok(list_of(alloc, &seen)?)
}
