//! The rows of amounts, no two of one column alike.
ghost use Rattle.std.specs.Prelude.{◌≡◌, ◌↔◌, IfOk, IsTrue};
ghost use Rattle.genealogy_svg.specs.Rows.{HaveRows, IsSmall, in_row};

use crate::drawing::{BoxPosition, DrawnEdge};
use crate::model::Picture;
use crate::positions::{free_from, take};
use std::alloc::{AllocError, Global};
use std::collections::BTreeSet;

/// The most lots and batches of a picture that shows amounts. In a larger one there would be more amounts than can be read.
pub const MOST_WITH_AMOUNTS: usize = 80;

/// Whether the amounts of a picture are shown.
pub(crate) fn shows_amounts(picture: &Picture) -> bool
    ensures { IsTrue result ↔ IsSmall picture.now }
{
    let lots = picture.lots.as_slice().len();
    lots <= MOST_WITH_AMOUNTS && picture.batches.as_slice().len() <= MOST_WITH_AMOUNTS - lots
}

/// The row that is level with the middle of a box: a box and the space below it are as high as five rows.
fn middle_row(position: BoxPosition) -> u32 {
    position.slot.saturating_mul(5).saturating_add(1)
}

/// The edge, with its amount in a row.
fn in_row(edge: &DrawnEdge, row: u32) -> DrawnEdge
    ensures { result ≡ in_row edge.now row }
{
    DrawnEdge {
        from: edge.from,
        to: edge.to,
        amount: edge.amount,
        unit: edge.unit,
        row: Some(row),
    }
}

/// The edges with their amounts, each in the first free row from the middle of the box on where it ends. The only error is that memory was refused.
pub(crate) fn with_rows(alloc: Global, edges: &[DrawnEdge]) -> Result<Vec<DrawnEdge>, AllocError>
    ensures { IfOk result (λ placed. HaveRows edges.now placed.items) }
{
    let mut taken = BTreeSet::new(alloc);
    let mut placed = Vec::new(alloc);
    for edge in edges {
        match free_from(&taken, edge.to.layer, middle_row(edge.to)) {
            Some(place) => {
                take(&mut taken, place)?;
                placed.push(in_row(edge, place.slot))?;
            }
            None => return Err(AllocError),
        }
    }
    Ok(placed)
}
