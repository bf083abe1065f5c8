//! Rows of the marks on what open recalls reach.

ghost use Rattle.std.specs.Prelude.{◌≡◌};
ghost use Rattle.sqlite.specs.Order.{column};
ghost use Rattle.sqlite.specs.Values.{bound};
ghost use Rattle.plant_tables_columns.specs.Naming.{mark_kind_from};
ghost use Rattle.plant_tables_columns.specs.TableColumns.{row_of_mark, mark_from};

use crate::decoded::Decoded;
use crate::reading::{columns, id, integer};
use crate::storing;
use plant_base::{Mark, MarkKind};
use sqlite::Row;
use sqlite_value::value::ValueRef;

#[tactic(auto, unfolding(crate::specs::Naming::mark_kind_from))]
fn mark_kind(row: &Row, at: usize) -> Option<MarkKind>
    ensures { result ≡ mark_kind_from (column row.now at) }
{
    let number = integer(row, at)?;
    [MarkKind::Lot, MarkKind::Batch]
        .iter()
        .copied()
        .find(|kind| i64::from(kind.number()) == number)
}

/// A row of `mark`.
pub fn mark_values(row: &Mark) -> [ValueRef<'_>; 3]
    ensures { bound result ≡ row_of_mark row.now }
{
    [
        storing::id(&row.recall),
        storing::small(row.kind.number()),
        storing::id(&row.id),
    ]
}

impl Decoded for Mark {
    ghost row_from = { mark_from };

    #[tactic(auto, unfolding(crate::specs::TableColumns::mark_from))]
    fn decode(row: &Row) -> Option<Mark> {
        columns(row, 3)?;
        Some(Mark {
            recall: id(row, 0)?,
            kind: mark_kind(row, 1)?,
            id: id(row, 2)?,
        })
    }
}
