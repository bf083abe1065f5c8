// The nodes around a lot or batch in the genealogy.
ghost use Rattle.std.specs.Prelude.{◌≡◌, ◌<◌, IfOk, vec_len, vec_capacity};
ghost use Rattle.plant_base.specs.{put};
ghost use Rattle.plant_trace.specs.{node_cmp};
ghost use Rattle.plant_trace.specs.ReadOnly.{ReadOnly};
ghost use Rattle.plant_answers_genealogy.specs.Surroundings.{nodes_around};

use crate::traces::trace;
use plant_questions::put_row;
use plant_trace::{Direction, Node};
use plant_view::{View, ViewFault};
use std::alloc::Global;

/// A lot or batch and its trace, lots before batches, each ascending.
pub(crate) fn nodes_around<V: View>(
    alloc: Global,
    view: &mut V,
    direction: Direction,
    start: Node,
) -> Result<Vec<Node>, ViewFault<V::Fault>>
    ensures { ReadOnly V.Edges view.old view.new
        (IfOk result (λ nodes. nodes.items ≡ nodes_around (V.state view.old) direction start)) }
{
    let mut nodes = trace(alloc, view, direction, start)?;
    if nodes.reserve(1).is_err() {
        return Err(ViewFault::Memory);
    }
    put_node(&mut nodes, &start);
    Ok(nodes)
}

fn put_node(nodes: &mut Vec<Node>, node: &Node)
    requires { vec_len nodes.old < vec_capacity nodes.old }
    ensures { nodes.new.items ≡ put node_cmp node.now nodes.old.items }
{
    put_row(nodes, *node);
}
