//! Edges from a list of pairs, looked up by their ends.

ghost use Rattle.std.specs.Prelude.{◌≡◌, OnOk, IfOk, IsTrue, refl};
ghost use Rattle.plant_trace.specs.Index.{index_has, Indexes, Links};
ghost use Rattle.plant_trace.specs.Reach.{Lists};
ghost use Rattle.plant_trace.specs.HoldsIfHonest.{same_along};
ghost use Rattle.plant_trace.specs.declared.direction.Direction.TheVariants.{Back, Forward};

use crate::direction::Direction;
use crate::edges::Edges;
use crate::listed::ends;
use crate::node::Node;
use crate::seen::list_of;
use std::alloc::{AllocError, Global};
use std::collections::{BTreeMap, BTreeSet};

/// The nodes next to each node.
type Index = BTreeMap<Node, BTreeSet<Node>>;

/// A list of pairs as a source of edges, which is always honest. The list may have doubles.
/// It is gone over once; then each call looks up the nodes next to one, and its only fault is that
/// memory was refused.
#[derive(Drop)]
pub struct Indexed<'a> {
    alloc: Global,
    /// The pairs.
    pub pairs: &'a [(Node, Node)],
    after: Index,
    before: Index,
    ghost forward: { Indexes Forward pairs.now after },
    ghost back: { Indexes Back pairs.now before },
}

/// Adds a node to the set at another.
fn link(alloc: Global, index: &mut Index, near: Node, far: Node) -> Result<(), AllocError>
    ensures { OnOk result (Links index.old index.new near far) }
{
    let mut nodes = index.remove(&near).unwrap_or(BTreeSet::new(alloc));
    nodes.insert(far)?;
    index.insert(near, nodes)?;
    Ok(())
}

/// The nodes next to each node in the direction.
fn index_of(
    alloc: Global,
    pairs: &[(Node, Node)],
    direction: Direction,
) -> Result<Index, AllocError>
    ensures { IfOk result (Indexes direction pairs.now) }
{
    let mut index = BTreeMap::new(alloc);
    for pair in pairs {
        let (near, far) = ends(*pair, direction);
        link(alloc, &mut index, near, far)?;
    }
    Ok(index)
}

/// The nodes of the set at a node, strictly ascending.
fn list_at(alloc: Global, index: &Index, node: Node) -> Result<Vec<Node>, AllocError>
    ensures { IfOk result (λ nodes. Lists (λ y. IsTrue (index_has index.now node y)) nodes.items) }
{
    match index.get(&node) {
        Some(nodes) => list_of(alloc, nodes),
        None => Ok(Vec::new(alloc)),
    }
}

impl<'a> Indexed<'a> {
    /// Indexes the pairs by both of their ends. The only error is that memory was refused.
    pub fn new(alloc: Global, pairs: &'a [(Node, Node)]) -> Result<Self, AllocError>
        ensures { IfOk result (λ source. source.pairs.now ≡ pairs.now) }
    {
        let after = index_of(alloc, pairs, Direction::Forward)?;
        let before = index_of(alloc, pairs, Direction::Back)?;
        Ok(Indexed {
            alloc,
            pairs,
            after,
            before,
        })
    }
}

impl<'a> Edges for Indexed<'a> {
    type Fault = AllocError;

    ghost honest = { λ _. Unit {0} };

    ghost pairs = { λ s. s.pairs.now };

    ghost kept = { λ s t. t.pairs.now ≡ s.pairs.now };

    ghost frame = { λ _ _. Unit {0} };

    fn succ(&mut self, node: Node) -> Result<Vec<Node>, AllocError> {
        list_at(self.alloc, &self.after, node)
    }

    fn pred(&mut self, node: Node) -> Result<Vec<Node>, AllocError> {
        list_at(self.alloc, &self.before, node)
    }

    ghost kept_refl = { λ s. refl };

    ghost kept_trans = { λ s t u a b. same_along a b };

    ghost frame_refl = { λ s. tt };

    ghost frame_trans = { λ s t u a b. tt };

    ghost kept_pairs = { λ s t a. a };
}
