//! Edges from a list of pairs.

ghost use Rattle.std.specs.Prelude.{◌≡◌, IfOk, refl};
ghost use Rattle.plant_trace.specs.Reach.{IsNext, Lists};
ghost use Rattle.plant_trace.specs.Turned.{turned};
ghost use Rattle.plant_trace.specs.HoldsIfHonest.{same_along};

use crate::direction::Direction;
use crate::edges::Edges;
use crate::node::Node;
use crate::seen::list_of;
use std::alloc::{AllocError, Global};
use std::collections::BTreeSet;

/// A list of pairs as a source of edges, which is always honest. The list may have doubles.
/// Each call goes over the whole list, and its only fault is that memory was refused.
#[derive(Drop)]
pub struct PairList<'a> {
    /// Where the answers take their memory.
    pub alloc: Global,
    /// The pairs.
    pub pairs: &'a [(Node, Node)],
}

/// The pair with its near end first, as the direction sees it.
pub fn ends(pair: (Node, Node), direction: Direction) -> (Node, Node)
    ensures { result ≡ turned direction pair }
{
    match direction {
        Direction::Forward => pair,
        Direction::Back => (pair.1, pair.0),
    }
}

/// The nodes that come right after this one in the direction, strictly ascending.
/// The only error is that memory was refused.
pub fn neighbours(
    alloc: Global,
    pairs: &[(Node, Node)],
    node: Node,
    direction: Direction,
) -> Result<Vec<Node>, AllocError>
    ensures { IfOk result (λ nodes. Lists (IsNext direction pairs.now node) nodes.items) }
{
    let mut found = BTreeSet::new(alloc);
    for pair in pairs {
        let (near, far) = ends(*pair, direction);
        if near != node {
            continue;
        }
        found.insert(far)?;
    }
    Ok(list_of(alloc, &found)?)
}

impl<'a> Edges for PairList<'a> {
    type Fault = AllocError;

    ghost honest = { λ _. Unit {0} };

    ghost pairs = { λ s. s.pairs.now };

    ghost kept = { λ s t. t.pairs.now ≡ s.pairs.now };

    ghost frame = { λ _ _. Unit {0} };

    fn succ(&mut self, node: Node) -> Result<Vec<Node>, AllocError> {
        neighbours(self.alloc, self.pairs, node, Direction::Forward)
    }

    fn pred(&mut self, node: Node) -> Result<Vec<Node>, AllocError> {
        neighbours(self.alloc, self.pairs, node, Direction::Back)
    }

    ghost kept_refl = { λ s. refl };

    ghost kept_trans = { λ s t u a b. same_along a b };

    ghost frame_refl = { λ s. tt };

    ghost frame_trans = { λ s t u a b. tt };

    ghost kept_pairs = { λ s t a. a };
}
