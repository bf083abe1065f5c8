//! Rows of the edges of the genealogy.

ghost use Rattle.std.specs.Prelude.{◌≡◌};
ghost use Rattle.sqlite.specs.Order.{column};
ghost use Rattle.sqlite.specs.Values.{bound};
ghost use Rattle.plant_tables_columns.specs.Naming.{edge_kind_from};
ghost use Rattle.plant_tables_columns.specs.TableColumns.{row_of_edge, edge_from};

use crate::decoded::Decoded;
use crate::reading::{columns, id, integer};
use crate::storing;
use plant_base::{EdgeKind, EdgeRow};
use sqlite::Row;
use sqlite_value::value::ValueRef;

#[tactic(auto, unfolding(crate::specs::Naming::edge_kind_from))]
fn edge_kind(row: &Row, at: usize) -> Option<EdgeKind>
    ensures { result ≡ edge_kind_from (column row.now at) }
{
    let number = integer(row, at)?;
    [
        EdgeKind::LotToBatch,
        EdgeKind::BatchToLot,
        EdgeKind::LotToLot,
    ]
    .iter()
    .copied()
    .find(|kind| i64::from(kind.number()) == number)
}

/// A row of `edge`.
pub fn edge_values(row: &EdgeRow) -> [ValueRef<'_>; 3]
    ensures { bound result ≡ row_of_edge row.now }
{
    [
        storing::small(row.kind.number()),
        storing::id(&row.from),
        storing::id(&row.to),
    ]
}

impl Decoded for EdgeRow {
    ghost row_from = { edge_from };

    #[tactic(auto, unfolding(crate::specs::TableColumns::edge_from))]
    fn decode(row: &Row) -> Option<EdgeRow> {
        columns(row, 3)?;
        Some(EdgeRow {
            kind: edge_kind(row, 0)?,
            from: id(row, 1)?,
            to: id(row, 2)?,
        })
    }
}
