//! Rows of master recipes.

ghost use Rattle.std.specs.Prelude.{◌≡◌};
ghost use Rattle.sqlite.specs.Values.{bound};
ghost use Rattle.plant_tables_columns.specs.TableColumns.{header_columns, row_of_recipe};
ghost use Rattle.plant_tables_columns.specs.TableColumns.{recipe_from, row_of_master_line};
ghost use Rattle.plant_tables_columns.specs.TableColumns.{master_line_from};

use crate::decoded::Decoded;
use crate::line::{line, line_values};
use crate::naming::recipe_state;
use crate::reading::{amount, columns, id, line_number, small, text};
use crate::storing;
use plant_base::{GREATEST_VERSION, Header, MasterLine, Recipe};
use sqlite::Row;
use sqlite_value::value::ValueRef;

/// The header in the first columns.
fn header(row: &Row) -> Option<Header>
    ensures { result ≡ header_columns.read row.now 0 }
{
    Some(Header {
        recipe: id(row, 0)?,
        version: small(row, 1, 1, GREATEST_VERSION)?,
        product: id(row, 2)?,
        base: amount(row, 3)?,
        least: amount(row, 4)?,
        greatest: amount(row, 5)?,
        title: text(row, 6)?,
    })
}

/// A row of `recipe`.
pub fn recipe_values(row: &Recipe) -> [ValueRef<'_>; 8]
    ensures { bound result ≡ row_of_recipe row.now }
{
    let header = &row.header;
    [
        storing::id(&header.recipe),
        storing::small(header.version),
        storing::id(&header.product),
        storing::amount(header.base),
        storing::amount(header.least),
        storing::amount(header.greatest),
        storing::text(&header.title),
        storing::word(row.state.name()),
    ]
}

impl Decoded for Recipe {
    ghost row_from = { recipe_from };

    #[tactic(auto, unfolding(crate::specs::TableColumns::recipe_from))]
    fn decode(row: &Row) -> Option<Recipe> {
        columns(row, 8)?;
        Some(Recipe {
            header: header(row)?,
            state: recipe_state(row, 7)?,
        })
    }
}

/// A row of `recipe_line`.
pub fn master_line_values(row: &MasterLine) -> [ValueRef<'_>; 9]
    ensures { bound result ≡ row_of_master_line row.now }
{
    let [kind, def, qty, t1, t2, t3] = line_values(&row.line);
    [
        storing::id(&row.recipe),
        storing::small(row.version),
        storing::small(row.number),
        kind,
        def,
        qty,
        t1,
        t2,
        t3,
    ]
}

impl Decoded for MasterLine {
    ghost row_from = { master_line_from };

    #[tactic(auto, unfolding(crate::specs::TableColumns::master_line_from))]
    fn decode(row: &Row) -> Option<MasterLine> {
        columns(row, 9)?;
        Some(MasterLine {
            recipe: id(row, 0)?,
            version: small(row, 1, 1, GREATEST_VERSION)?,
            number: line_number(row, 2)?,
            line: line(row, 3, 4)?,
        })
    }
}
