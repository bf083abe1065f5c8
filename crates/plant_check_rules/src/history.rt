//! What was done, as rows of table movement report it.

ghost use Rattle.std.specs.Prelude.{◌≡◌, IfOk};
ghost use Rattle.plant_view.specs.{edges_among};
ghost use Rattle.plant_check_rules.specs.Rules.{movements_in, are_acyclic};

use plant_base::Movement;
use plant_tables::BookedRow;
use plant_trace::{Node, acyclic};
use plant_view::edges;
use std::alloc::{AllocError, Global};

/// The movements of the rows that have the columns of their kinds.
/// The only error is that memory was refused.
pub fn movements_in(alloc: Global, rows: &[BookedRow]) -> Result<Vec<Movement>, AllocError>
    ensures { IfOk result (λ list. list.items ≡ movements_in rows.now) }
{
    let mut movements = Vec::with_capacity(alloc, rows.len())?;
    movements.extend(rows.iter().filter_map(|r| r.movement()))?;
    Ok(movements)
}

/// Whether nothing was made from itself. The only error is that memory was refused.
pub fn are_acyclic(alloc: Global, movements: &[Movement]) -> Result<bool, AllocError>
    ensures { IfOk result (λ b. b ≡ are_acyclic (edges_among movements.now)) }
{
    let pairs = edges(alloc, movements)?;
    is_acyclic(alloc, &pairs)
}

fn is_acyclic(alloc: Global, pairs: &[(Node, Node)]) -> Result<bool, AllocError>
    ensures { IfOk result (λ b. b ≡ are_acyclic pairs.now) }
{
    acyclic(alloc, pairs)
}
