ghost use Rattle.std.specs.Prelude.{◌≡◌, Option, IfOk, option_map};
ghost use Rattle.plant_tables_columns.specs.DecodedRows.{all_from};

use sqlite::Row;
use std::alloc::{AllocError, Global};

/// A row of the desk that is decoded from a stored row whose values obey their rules.
pub trait Decoded: Sized + Drop {
    ghost use Rattle.std.specs.Prelude.{Option};
    ghost use Rattle.sqlite.specs.Order.{Row as Values};

    // The row that is decoded from these values.
    ghost row_from: { Values → Option Self };

    /// The row of the desk. `None` where the row has another number of columns, or a value breaks its rule.
    fn decode(row: &Row) -> Option<Self>
        ensures { result ≡ row_from row.now };
}

/// The rows of the desk that are decoded from all stored rows, in their order. `None` where one can't be decoded; an error
/// where there is no memory.
pub fn decode_all<R: Decoded>(alloc: Global, stored: &[Row]) -> Result<Option<Vec<R>>, AllocError>
    ensures { IfOk result (λ rows. option_map (λ list. list.items) rows
        ≡ all_from R.row_from stored.now) }
{
    let mut rows = Vec::with_capacity(alloc, stored.len())?;
    for row in stored {
        let Some(row) = R::decode(row) else {
            return Ok(None);
        };
        rows.push(row)?;
    }
    Ok(Some(rows))
}
