//! One step of a trace.

ghost use Rattle.std.specs.Prelude.{◌≡◌, List, IfOk};
ghost use Rattle.plant_trace.specs.Reach.{IsNext, Lists};
ghost use Rattle.plant_trace.specs.ReadOnly.{ReadOnly};

use crate::direction::Direction;
use crate::edges::Edges;
use crate::fault::TraceFault;
use crate::node::Node;

/// The nodes that come right after this one in the direction.
/// `Edges` where the source failed; no other error is returned.
pub fn ask<E: Edges>(
    edges: &mut E,
    node: Node,
    direction: Direction,
) -> Result<Vec<Node>, TraceFault<E::Fault>>
    ensures { ReadOnly E.Edges edges.old edges.new
        (IfOk result (λ nodes. Lists (IsNext direction (E.pairs edges.old) node) nodes.items)) }
{
    let answer = match direction {
        Direction::Forward => edges.succ(node),
        Direction::Back => edges.pred(node),
    };
    answer.map_err(TraceFault::Edges)
}
