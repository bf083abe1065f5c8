use std::marker::Model;

/// A column of a STRICT table, with no default: its type, its name, and whether it may be NULL.
#[derive(Clone, Copy, Debug)]
pub enum ColumnDef<'a> {
    /// An INTEGER column of this name, NOT NULL.
    Integer(&'a [u8]),
    /// A TEXT column of this name, NOT NULL.
    Text(&'a [u8]),
    /// An INTEGER column of this name.
    IntegerOrNull(&'a [u8]),
    /// A TEXT column of this name.
    TextOrNull(&'a [u8]),
}

/// How a table is declared: STRICT, with this name, these columns, and a UNIQUE over each of these keys, which
/// are the indexes of their columns, the first column being 1.
#[derive(Debug, Drop)]
pub struct TableDef<'a> {
    /// The name of the table.
    pub name: &'a [u8],
    /// The columns in their order.
    pub columns: &'a [ColumnDef<'a>],
    /// The keys, each as the numbers of its columns, of which the first is 1.
    pub keys: &'a [&'a [usize]],
}

/// The text that makes an index which bars no row, and the index's name.
#[derive(Clone, Copy, Debug)]
pub struct CreateIndexStatement<'a> {
    /// The name of the index.
    pub name: &'a [u8],
    /// The CREATE INDEX statement.
    pub sql: &'a str,
}

impl<'a> Model for TableDef<'a> {
    ghost use Rattle.std.specs.Prelude.{map};
    ghost use Rattle.sql_tables.specs.TableDefs as table_def;
    ghost use Rattle.sql_tables.specs.TableDefs.{column_of};

    ghost Value = { table_def.TableDef };

    ghost view = { λ f. record {
      name = f.name.now;
      columns = map column_of f.columns.now;
      keys = map (λ k. k.now) f.keys.now;
    } };
}
