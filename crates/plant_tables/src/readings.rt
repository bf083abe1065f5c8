//! What is read of a table, and which tables of a schema are.

ghost use Rattle.std.specs.Prelude.{◌≡◌, map};
ghost use Rattle.std.specs.List.{AllByRecursion};
ghost use Rattle.plant_tables.specs.DeskTableDefs.{desk_table_defs, table_defs_of};
ghost use Rattle.plant_tables.specs.Readings.{SelectsAll};

use crate::table_defs::tables_in;
use sql_tables::TableDef;

/// A table, and the text that reads all its rows.
#[derive(Drop)]
pub(crate) struct Reading {
    /// How the table is declared.
    pub table_def: TableDef<'static>,
    /// The SELECT statement that reads all rows of the table, by its key.
    pub select: &'static str,
}

/// Those of the tables of a schema.
pub(crate) fn readings_of(readings: &[Reading], schema: u64) -> &[Reading]
    requires table_defs { map (λ reading. reading.table_def) readings.now ≡ desk_table_defs }
    requires texts { AllByRecursion SelectsAll readings.now }
    ensures table_defs { map (λ reading. reading.table_def) result.now ≡ table_defs_of schema }
    ensures texts { AllByRecursion SelectsAll result.now }
{
    let (own, _) = readings.split_at(tables_in(schema));
    own
}
