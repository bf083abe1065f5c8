//! Sublots whose stock isn't what entered them less what left them.
ghost use Rattle.std.specs.Prelude.{◌≡◌, IfOk};
ghost use Rattle.plant_check.specs.Stocks.{stock_fault_in};

use grouped_rows::Grouped;
use plant_base::Sublot;
use plant_check_rules::ends::{BySublotEntered, BySublotLeft, entries, exits, total_booked};
use plant_requirements::first::{RowRule, first_fault, in_column};
use plant_requirements::keys::sublot_key;
use plant_requirements::{Column, Found, RowFault, Table, Wanted};
use plant_tables::DeskRows;
use std::alloc::{AllocError, Global};

/// That a sublot's stock is what entered it less what left it.
#[derive(Drop)]
struct Stocks<'a> {
    entered: Grouped<'a, BySublotEntered>,
    left: Grouped<'a, BySublotLeft>,
}

impl<'a> RowRule<Sublot> for Stocks<'a> {
    ghost use Rattle.plant_check.specs.Stocks.{stock_fault};

    ghost fault_of = { λ t s. stock_fault t.entered.rows.now t.left.rows.now s };

    fn fault(&self, _alloc: Global, row: &Sublot) -> Result<Option<RowFault>, AllocError> {
        let entered = total_booked(entries(&self.entered, row.lot, row.number));
        let left = total_booked(exits(&self.left, row.lot, row.number));
        if u128::from(row.stock) + left == entered {
            return Ok(None);
        }
        let place = (Table::Sublot, sublot_key(row));
        let (found, wanted) = (Found::Number(row.stock), Wanted::Stock { entered, left });
        Ok(Some(in_column(place, Column::Stock, found, wanted)))
    }
}

/// The first sublot whose stock isn't what entered it less what left it. The only error is that memory was refused.
pub(crate) fn stock_fault(alloc: Global, rows: &DeskRows) -> Result<Option<RowFault>, AllocError>
    ensures { IfOk result (λ reported. reported ≡ stock_fault_in rows.now.movements.items rows.now.sublots.items) }
{
    let entered = Grouped::<BySublotEntered>::new(alloc, rows.movements.as_slice())?;
    let left = Grouped::<BySublotLeft>::new(alloc, rows.movements.as_slice())?;
    let stocks = Stocks { entered, left };
    first_fault(alloc, &stocks, rows.sublots.as_slice())
}
