//! What a recall of a lot reaches.

ghost use Rattle.std.specs.Prelude.{◌≡◌, IfOk};
ghost use Rattle.std.specs.List.Sorted.{IsStrictlySortedBy};
ghost use Rattle.plant_trace.specs.Nodes.{node_cmp};
ghost use Rattle.plant_trace.specs.Reach.{Lists};
ghost use Rattle.plant_trace.specs.Recalls.{IsRecalled, RecalledWhereReached, StaysWhereUnreached};
ghost use Rattle.plant_trace.specs.Recalls.{GrowsByNew};
ghost use Rattle.plant_trace.specs.ReadOnly.{ReadOnly};

use crate::direction::Direction;
use crate::edges::Edges;
use crate::fault::TraceFault;
use crate::node::Node;
use crate::seen::{list_of, note_all};
use crate::worklist::closure;
use plant_base::Id;
use std::alloc::Global;
use std::collections::BTreeSet;

/// What a recall of a lot reaches: the lot itself and every node that one or more edges lead to from it, strictly
/// ascending.
///
/// What is listed is right where the source is honest as the call ends. Faults are those of `closure`.
pub fn reached<E: Edges>(
    alloc: Global,
    edges: &mut E,
    lot: Id,
) -> Result<Vec<Node>, TraceFault<E::Fault>>
    ensures reported { ReadOnly E.Edges edges.old edges.new
        (IfOk result (λ nodes. Lists (IsRecalled (E.pairs edges.old) lot) nodes.items)) }

    // of every source
    ensures ascending { IfOk result (λ nodes. IsStrictlySortedBy node_cmp nodes.items) }
{
    let prefetch = closure(alloc, edges, Node::Lot(lot), Direction::Forward)?;
    let mut all = BTreeSet::new(alloc);
    note_all(&mut all, &prefetch)?;
    note_all(&mut all, &[Node::Lot(lot)])?;
    Ok(list_of(alloc, &all)?)
}

/// What recalls reach as pairs are added, as laws about them; the function itself does nothing.
///
/// `test`: the test that definitions use says just what is reached. `stays`: pairs that begin at nothing which is
/// reached leave what is reached. `grows`: a pair that leads to a node where no pair begins adds just that node, and
/// only where its first end is reached.
pub fn recall_law()
    ensures test { RecalledWhereReached }
    ensures stays { StaysWhereUnreached }
    ensures grows { GrowsByNew }
{}
