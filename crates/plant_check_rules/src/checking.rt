//! The rules on edges and recalls, which are tested apart from the rows that break them.
ghost use Rattle.std.specs.Prelude.{◌≡◌, IfOk};
ghost use Rattle.plant_tables.specs.{rows_listed};
ghost use Rattle.plant_check_rules.specs.Rules.{are_kept_recalls, obeys};
ghost use Rattle.plant_check_rules.specs.declared.rule.Rule.{Rule};

use crate::edges::are_kept_edges;
use crate::history::{are_acyclic, movements_in};
use crate::recalls::{are_fitting, recalls_read};
use plant_base::{Movement, Recall};
use plant_requirements::{are_marks, are_recalls};
use plant_tables::DeskRows;
use std::alloc::{AllocError, Global};

/// Whether nothing was made from itself, and the edges that are kept are those of the movements. The only error is that memory
/// was refused.
#[tactic(auto, unfolding(plant_tables::specs::RowLists::rows_listed))]
pub fn are_edges_of(alloc: Global, rows: &DeskRows) -> Result<bool, AllocError>
    ensures { IfOk result (λ b. b ≡ obeys Rule.Descent (rows_listed rows.now)) }
{
    let movements = movements_in(alloc, rows.movements.as_slice())?;
    if !are_acyclic(alloc, movements.as_slice())? {
        return Ok(false);
    }
    are_kept_edges(
        alloc,
        rows.meta.schema,
        rows.edges.as_slice(),
        movements.as_slice(),
    )
}

/// Whether each recall's lot is there, its lifting fits its state and no moment of it is to come, and the marks are those of what
/// the open ones reach. The only error is that memory was refused.
#[tactic(auto, unfolding(plant_tables::specs::RowLists::rows_listed))]
pub fn are_right_recalls(alloc: Global, rows: &DeskRows) -> Result<bool, AllocError>
    ensures { IfOk result (λ b. b ≡ obeys Rule.Recalls (rows_listed rows.now)) }
{
    let stated = rows.recalls.as_slice();
    if !are_fitting(stated) {
        return Ok(false);
    }
    let recalls = recalls_read(alloc, stated)?;
    let movements = movements_in(alloc, rows.movements.as_slice())?;
    are_kept_recalls(alloc, rows, recalls.as_slice(), movements.as_slice())
}

#[tactic(auto, unfolding(plant_tables::specs::RowLists::rows_listed))]
fn are_kept_recalls(
    alloc: Global,
    rows: &DeskRows,
    recalls: &[Recall],
    movements: &[Movement],
) -> Result<bool, AllocError>
    ensures { IfOk result (λ b. b ≡ are_kept_recalls (rows_listed rows.now) recalls.now movements.now) }
{
    if !are_recalls(alloc, rows.meta.position.at, rows.lots.as_slice(), recalls)? {
        return Ok(false);
    }
    are_marks(alloc, recalls, movements, rows.marks.as_slice())
}
