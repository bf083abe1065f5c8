//! What is answered of the genealogy around a lot or batch.

use plant_base::{EdgeRow, Id, Items, Unit};

/// The genealogy around a lot or batch.
#[derive(Drop)]
pub struct Genealogy {
    /// The lot or batch and its trace, lots before batches, each ascending.
    pub nodes: Items<NodeAnswer>,
    /// The edges between these nodes, by their kinds, their first and their second ends.
    pub edges: Items<BookedEdge>,
}

/// A lot or batch in the genealogy.
#[derive(Clone, Copy)]
pub enum NodeAnswer {
    /// A lot, and what is known of it.
    Lot(LotNode),
    /// The batch of this id.
    Batch(Id),
}

/// A lot in the genealogy.
#[derive(Clone, Copy)]
pub struct LotNode {
    /// The lot.
    pub lot: Id,
    /// The definition of the lot.
    pub def: Id,
    /// The unit of its definition, in which its stock and the amounts of its edges are counted.
    pub unit: Unit,
    /// Whether the lot has a hold.
    pub held: bool,
    /// Whether an open recall reaches the lot.
    pub recalled: bool,
    /// The stock of all its sublots.
    pub stock: u64,
}

/// An edge, and what was booked along it.
#[derive(Clone, Copy)]
pub struct BookedEdge {
    /// The kind and both ends of the edge.
    pub edge: EdgeRow,
    /// The amounts of all movements that make the edge.
    pub amount: u64,
}
