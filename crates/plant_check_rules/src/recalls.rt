//! The recalls that are decoded from rows of table recall.

ghost use Rattle.std.specs.Prelude.{◌≡◌, IfOk};
ghost use Rattle.plant_check_rules.specs.Rules.{are_fitting, recalls_read};

use plant_base::Recall;
use plant_tables::StatedRecall;
use std::alloc::{AllocError, Global};

/// Whether each row has the columns of a lifting that its state asks for.
pub(crate) fn are_fitting(rows: &[StatedRecall]) -> bool
    ensures { result ≡ are_fitting rows.now }
{
    rows.iter().all(|r| r.recall().is_some())
}

/// The recalls of the rows that have them.
/// The only error is that memory was refused.
pub fn recalls_read(alloc: Global, rows: &[StatedRecall]) -> Result<Vec<Recall>, AllocError>
    ensures { IfOk result (λ list. list.items ≡ recalls_read rows.now) }
{
    rows.iter().filter_map(|r| r.recall()).collect(alloc)
}
