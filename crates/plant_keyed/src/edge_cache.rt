//! All edges as one direction sees them, found by halves.

ghost use Rattle.std.specs.Prelude.{◌≡◌, ◌≤◌, false, true, length, map, IfOk};
ghost use Rattle.std.specs.List.Sorted.{IsPartitionPoint};
ghost use Rattle.std.specs.Ordering.{is_le, is_lt};
ghost use Rattle.plant_trace.specs.{node_cmp, IsNext, Lists, turned};
ghost use Rattle.plant_trace.specs.declared.direction.Direction.TheVariants.{Forward};
ghost use Rattle.plant_keyed.specs.Edges.{Ascend, AreTurned, HasEdgesAt};

use plant_trace::{Direction, Node, ends, neighbours};
use std::alloc::{AllocError, Global};

/// All edges as a direction sees them, each with its near end first, in the order of those ends; or none yet.
#[derive(Drop)]
pub struct EdgeCache {
    /// Whether they were read.
    pub are_read: bool,
    /// The direction.
    pub direction: Direction,
    /// The edges, their near ends first.
    pub links: Vec<(Node, Node)>,
    ghost ascend: { Ascend links.items },
}

impl EdgeCache {
    /// No edges, since none were read. No memory is taken.
    pub fn unread(alloc: Global) -> EdgeCache
        ensures { result.are_read ≡ false }
    {
        EdgeCache {
            are_read: false,
            direction: Direction::Forward,
            links: Vec::new(alloc),
        }
    }

    /// Puts edges in order. The only error is that memory was refused.
    pub(crate) fn new(
        alloc: Global,
        pairs: &[(Node, Node)],
        direction: Direction,
    ) -> Result<EdgeCache, AllocError>
        ensures way { IfOk result (λ d. d.direction ≡ direction) }
        ensures turned { IfOk result (λ d. AreTurned direction pairs.now d.links.items) }
        ensures read { IfOk result (λ d. d.are_read ≡ true) }
    {
        let mut links = turned_pairs(alloc, pairs, direction)?;
        links.sort_by_key(|link| link.0)?;
        Ok(EdgeCache {
            are_read: true,
            direction,
            links,
        })
    }

    /// The nodes that come right after this one, strictly ascending. The only error is that memory was refused.
    pub(crate) fn next(&self, alloc: Global, node: Node) -> Result<Vec<Node>, AllocError>
        ensures { IfOk result
            (λ nodes. Lists (IsNext Forward self.now.links.items node) nodes.items) }
    {
        let links = links_at(self.links.as_slice(), &node);
        neighbours(alloc, links, node, Direction::Forward)
    }
}

// The links that begin at the node.
fn links_at<'a>(links: &'a [(Node, Node)], node: &Node) -> &'a [(Node, Node)]
    requires { Ascend links.now }
    ensures { HasEdgesAt Forward node.now links.now result.now }
{
    let from = count_before(links, *node);
    let to = count_up_to(links, *node);
    &links[from..to]
}

// How many links begin before the node.
fn count_before(links: &[(Node, Node)], node: Node) -> usize
    requires { Ascend links.now }
    ensures bound { result ≤ length links.now }
    ensures parted { IsPartitionPoint (λ l. is_lt (node_cmp l.0 node) ≡ true)
        (λ l. is_lt (node_cmp l.0 node) ≡ false) links.now result }
{
    links.partition_point(
        |link: &(Node, Node)| -> bool
            ensures { result ≡ is_lt (node_cmp link.now.0 node) }
        { link.0 < node },
    )
}

// How many links begin before the node or at it.
fn count_up_to(links: &[(Node, Node)], node: Node) -> usize
    requires { Ascend links.now }
    ensures bound { result ≤ length links.now }
    ensures parted { IsPartitionPoint (λ l. is_le (node_cmp l.0 node) ≡ true)
        (λ l. is_le (node_cmp l.0 node) ≡ false) links.now result }
{
    links.partition_point(
        |link: &(Node, Node)| -> bool
            ensures { result ≡ is_le (node_cmp link.now.0 node) }
        { link.0 <= node },
    )
}

// The pairs with their near ends first. The only error is that memory was refused.
fn turned_pairs(
    alloc: Global,
    pairs: &[(Node, Node)],
    direction: Direction,
) -> Result<Vec<(Node, Node)>, AllocError>
    ensures { IfOk result (λ links. links.items ≡ map (turned direction) pairs.now) }
{
    pairs
        .iter()
        .map(|pair| ends(*pair, direction))
        .collect(alloc)
}
