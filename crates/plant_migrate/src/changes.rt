//! The rows that a migration adds.

ghost use Rattle.std.specs.Prelude.{◌≡◌, IfOk, IsOkUnless};
ghost use Rattle.std.specs.List.{filter_map};
ghost use Rattle.plant_migrate.specs.Migrated.{edge_booked, edge_change, edges_from, added_rows};
ghost use Rattle.plant_migrate.specs.Migrated.{AreEdges};

use plant_base::{EdgeRow, MovementKind};
use plant_tables::BookedRow;
use plant_view::{RowChange, RowParts, edge_row};
use sql_tables::StoreFault;
use std::alloc::{AllocError, Global};

/// The edge that a booked movement makes, where its columns are those of its kind and it makes one.
fn edge_booked(booked: &BookedRow) -> Option<EdgeRow>
    ensures { result ≡ edge_booked booked.now }
{
    // The checker can't follow movements, unless the function names this type.
    let _: Option<MovementKind> = None;
    let movement = booked.movement()?;
    edge_row(&movement)
}

/// The change that puts this edge.
fn edge_change(booked: &BookedRow) -> Option<RowChange>
    ensures { result ≡ edge_change booked.now }
{
    let edge = edge_booked(booked)?;
    Some(RowChange::Edge(edge))
}

/// The changes that put the edges of all booked movements.
fn edge_changes(alloc: Global, booked: &[BookedRow]) -> Result<Vec<RowChange>, AllocError>
    ensures { IfOk result (λ changes. changes.items ≡ filter_map edge_change booked.now) }
{
    let _: Option<RowParts> = None;
    booked
        .iter()
        .filter_map(|row| edge_change(row))
        .collect(alloc)
}

/// The changes that put the edges of all booked movements of tables of this version, which keep no edges yet; none of
/// those of a later version. The only error is that memory was refused.
pub(crate) fn edges_from(
    alloc: Global,
    version: u64,
    booked: &[BookedRow],
) -> Result<Vec<RowChange>, StoreFault>
    ensures fault { IsOkUnless result StoreFault.Memory }
    ensures edges { IfOk result (λ changes. changes.items ≡ edges_from version booked.now) }
{
    if version != 1 {
        return Ok(Vec::new(alloc));
    }
    match edge_changes(alloc, booked) {
        Ok(changes) => Ok(changes),
        Err(_) => Err(StoreFault::Memory),
    }
}

/// The rows of the tables that the schema after this version adds: the edges, where it is the second.
pub(crate) fn added_rows(version: u64, edges: &[RowChange]) -> &[RowChange]
    ensures { result.now ≡ added_rows version edges.now }
{
    if version == 1 { edges } else { &[] }
}
