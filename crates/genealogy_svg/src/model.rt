//! What a picture shows.
use plant_base::{Id, Items, Unit};
use plant_trace::Node;

/// A lot, as it is shown.
#[derive(Clone, Copy, Debug, PartialEq, Eq)]
pub struct PictureLot {
    /// The lot.
    pub id: Id,
    /// The definition of its material.
    pub definition: Id,
    /// The unit of its amounts.
    pub unit: Unit,
    /// How much of it is in stock, in its unit.
    pub stock: u64,
    /// Whether it is held.
    pub is_held: bool,
    /// Whether it is recalled.
    pub is_recalled: bool,
}

/// An edge, as it is shown: how much went from one node into another.
#[derive(Clone, Copy, Debug, PartialEq, Eq)]
pub struct PictureEdge {
    /// Where it begins.
    pub from: Node,
    /// Where it ends.
    pub to: Node,
    /// How much, in the unit.
    pub amount: u64,
    /// The unit of the lot at its beginning, or of that at its end where it begins at a batch.
    pub unit: Unit,
}

/// A genealogy, as it is shown.
#[derive(Debug, Drop)]
pub struct Picture {
    /// Its lots, ascending.
    pub lots: Items<PictureLot>,
    /// Its batches, ascending.
    pub batches: Items<Id>,
    /// Its edges, ascending by where they begin, and those of one beginning by where they end.
    pub edges: Items<PictureEdge>,
}
