//! The nodes of a genealogy.

ghost use Rattle.std.specs.Prelude.{refl, Some};
ghost use Rattle.plant_trace.specs.Nodes.{node_cmp, node_text, node_total, node_ties, node_partial};

use plant_base::Id;
use std::cmp::Ordering;
use std::fmt;

/// What material can come from or go into: a lot, as IEC 62264-2 has material lots, or a batch, the
/// job whose response lists the material actually used and made, as in IEC 62264-4.
/// A lot and a batch of one id are two nodes. Lots come before batches, each kind in the order of the ids' bytes.
#[derive(Clone, Copy, Debug, PartialEq, Eq)]
pub enum Node {
    /// The lot of this id.
    Lot(Id),
    /// The batch of this id.
    Batch(Id),
}

/// A node in words: `lot ID` or `batch ID`.
impl fmt::Display for Node {
    ghost output = { λ n. Some (node_text n) };

    fn fmt<W: fmt::Write>(&self, f: &mut fmt::Formatter<W>) -> fmt::Result {
        match self {
            Node::Lot(id) => {
                let id = id.as_str();
                write!(f, "lot {id}")
            }
            Node::Batch(id) => {
                let id = id.as_str();
                write!(f, "batch {id}")
            }
        }
    }
}

impl Ord for Node {
    ghost cmp = { node_cmp };

    ghost total = { node_total };

    ghost matches_partial_cmp = { λ x y. refl };

    ghost matches_eq = { node_ties };

    fn cmp(&self, other: &Node) -> Ordering {
        match (self, other) {
            (Node::Lot(a), Node::Lot(b)) => a.cmp(b),
            (Node::Lot(_), Node::Batch(_)) => Ordering::Less,
            (Node::Batch(_), Node::Lot(_)) => Ordering::Greater,
            (Node::Batch(a), Node::Batch(b)) => a.cmp(b),
        }
    }
}

impl PartialOrd for Node {
    ghost partial_cmp = { λ x y. Some (node_cmp x y) };

    ghost laws = { node_partial };

    fn partial_cmp(&self, other: &Node) -> Option<Ordering> {
        Some(self.cmp(other))
    }
}
