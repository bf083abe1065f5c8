//! The edges that movements make, as their table keeps them.

ghost use Rattle.std.specs.Prelude.{◌≡◌, [], IfOk};
ghost use Rattle.std.specs.List.{filter_map};
ghost use Rattle.plant_base.specs.{edge_order};
ghost use Rattle.plant_view.specs.{edge_row_of, edge_rows, put_all, edges_in};
ghost use Rattle.plant_check_rules.specs.Rules.{are_kept_edges};

use plant_base::{EdgeRow, Movement};
use plant_view::edge_row;
use std::alloc::{AllocError, Global};

/// Whether these are the edges that the movements make, in a schema that keeps them, and none in another. The only error
/// is that memory was refused.
pub fn are_kept_edges(
    alloc: Global,
    schema: u64,
    rows: &[EdgeRow],
    movements: &[Movement],
) -> Result<bool, AllocError>
    ensures { IfOk result (λ b. b ≡ are_kept_edges schema rows.now movements.now) }
{
    let edges = edges_in(alloc, schema, movements)?;
    Ok(rows == edges.as_slice())
}

/// The edges that the movements make, each once and by their order, in a schema that keeps them, and none in another. The
/// only error is that memory was refused.
pub fn edges_in(
    alloc: Global,
    schema: u64,
    movements: &[Movement],
) -> Result<Vec<EdgeRow>, AllocError>
    ensures { IfOk result (λ rows. rows.items ≡ edges_in schema movements.now) }
{
    if schema >= 2 {
        edge_rows(alloc, movements)
    } else {
        Ok(Vec::new(alloc))
    }
}

fn edge_rows(alloc: Global, movements: &[Movement]) -> Result<Vec<EdgeRow>, AllocError>
    ensures { IfOk result (λ rows. rows.items ≡ edge_rows movements.now) }
{
    let mut edges = edges_of(alloc, movements)?;
    put_in_order(&mut edges);
    Ok(edges)
}

fn edges_of(alloc: Global, movements: &[Movement]) -> Result<Vec<EdgeRow>, AllocError>
    ensures { IfOk result (λ rows. rows.items ≡ filter_map edge_row_of movements.now) }
{
    movements.iter().filter_map(|m| edge_row(m)).collect(alloc)
}

// Puts the edges in their order, each once.
fn put_in_order(edges: &mut Vec<EdgeRow>)
    ensures { edges.new.items ≡ put_all edge_order edges.old.items [] }
{
    edges.sort_unstable();
    edges.dedup();
}
