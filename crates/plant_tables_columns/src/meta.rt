//! The row of table meta.

ghost use Rattle.std.specs.Prelude.{◌≡◌};
ghost use Rattle.sqlite.specs.Values.{bound};
ghost use Rattle.sqlite_value.specs.Value.{owned};
ghost use Rattle.plant_tables_columns.specs.Kinds.{number};
ghost use Rattle.plant_tables_columns.specs.TableColumns.{row_of_meta, meta_from};

use crate::decoded::Decoded;
use crate::reading::{columns, moment, number};
use crate::storing;
use plant_base::{GREATEST_SEQ, Meta, Position};
use sqlite::Row;
use sqlite_value::value::ValueRef;

/// The schema and the seq are given as values.
pub fn meta_values(
    row: &Meta,
    schema: ValueRef<'static>,
    seq: ValueRef<'static>,
) -> [ValueRef<'static>; 4]
    requires schema { owned schema ≡ number row.now.schema }
    requires seq { owned seq ≡ number row.now.position.seq }
    ensures { bound result ≡ row_of_meta row.now }
{
    [
        storing::small(1),
        schema,
        seq,
        storing::moment(row.position.at),
    ]
}

impl Decoded for Meta {
    ghost row_from = { meta_from };

    #[tactic(auto, unfolding(crate::specs::TableColumns::meta_from))]
    fn decode(row: &Row) -> Option<Meta> {
        columns(row, 4)?;
        number(row, 0, 1, 1)?;
        let schema = number(row, 1, 1, i64::MAX as u64)?;
        let seq = number(row, 2, 0, GREATEST_SEQ)?;
        let at = moment(row, 3)?;
        Some(Meta {
            schema,
            position: Position { seq, at },
        })
    }
}
