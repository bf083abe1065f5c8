//! What a drawing shows, and where.
ghost use Rattle.std.specs.Prelude.{◌≡◌};

use crate::model::PictureLot;
use plant_base::{Id, Items, Unit};
use plant_trace::Node;
use std::alloc::AllocError;
use thiserror::Error;

/// A position in a drawing.
#[derive(Clone, Copy, Debug, PartialEq, Eq, PartialOrd, Ord)]
pub struct BoxPosition {
    /// How many columns are to the left of it.
    pub layer: u32,
    /// How many positions of its column are above it.
    pub slot: u32,
}

/// A lot at its position.
#[derive(Clone, Copy, Debug, PartialEq, Eq)]
pub struct DrawnLot {
    /// The lot.
    pub lot: PictureLot,
    /// The position of its box.
    pub position: BoxPosition,
}

/// A batch at its position.
#[derive(Clone, Copy, Debug, PartialEq, Eq)]
pub struct DrawnBatch {
    /// The batch.
    pub batch: Id,
    /// The position of its box.
    pub position: BoxPosition,
}

/// An edge between two positions.
#[derive(Clone, Copy, Debug, PartialEq, Eq)]
pub struct DrawnEdge {
    /// Where it begins.
    pub from: BoxPosition,
    /// Where it ends.
    pub to: BoxPosition,
    /// How much, in the unit.
    pub amount: u64,
    /// The unit.
    pub unit: Unit,
    /// How many rows of amounts are above its own in the gap in front of the column where it ends; `None` where its amount is left out.
    pub row: Option<u32>,
}

/// A picture with the positions of its nodes.
#[derive(Debug, Drop)]
pub struct Drawing {
    /// Its lots, in the order of the picture.
    pub lots: Items<DrawnLot>,
    /// Its batches, in the order of the picture.
    pub batches: Items<DrawnBatch>,
    /// Its edges, in the order of the picture.
    pub edges: Items<DrawnEdge>,
}

/// Why a picture isn't laid out.
#[derive(Clone, Copy, Debug, PartialEq, Eq, Error)]
pub enum LayoutFault {
    /// Its edges lead in a circle.
    #[error("edges lead in a circle")]
    Circle,
    /// An edge begins or ends at a node that the picture hasn't.
    #[error("an edge begins or ends at {0}, which is none of the nodes")]
    Lost(Node),
    /// Memory was refused.
    #[error("out of memory")]
    Memory,
}

impl From<AllocError> for LayoutFault {
    ghost use Rattle.genealogy_svg.specs.declared.drawing.LayoutFault.TheVariants as fault;

    ghost from_gives = { λ _ made. made ≡ fault.Memory };

    fn from(_error: AllocError) -> Self {
        LayoutFault::Memory
    }
}
