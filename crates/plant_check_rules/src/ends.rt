//! What rows of table movement bring to a sublot and take from it, as their columns say.

ghost use Rattle.std.specs.Prelude.{◌≡◌, ◌<◌, ◌^◌};
ghost use Rattle.plant_check_rules.specs.SublotFlows.{other_end, entered_by, left_by, entries, exits};
ghost use Rattle.plant_check_rules.specs.SublotFlows.{total_booked};

use grouped_rows::{Grouped, Grouping};
use plant_base::Id;
use plant_tables::{BookedRow, MovementKindCode};

/// Rows by the sublot that they bring their amount to.
pub struct BySublotEntered;

impl Grouping for BySublotEntered {
    ghost use Rattle.plant_check_rules.specs.SublotFlows.{entered_by};

    type Row = BookedRow;

    type Key = (Id, u16);

    ghost key_of = { λ r. entered_by r.kind_code r };

    fn key(row: &BookedRow) -> Option<(Id, u16)> {
        entered_by(row)
    }
}

/// Rows by the sublot that they take their amount from.
pub struct BySublotLeft;

impl Grouping for BySublotLeft {
    ghost use Rattle.plant_check_rules.specs.SublotFlows.{left_by};

    type Row = BookedRow;

    type Key = (Id, u16);

    ghost key_of = { λ r. left_by r.kind_code r };

    fn key(row: &BookedRow) -> Option<(Id, u16)> {
        left_by(row)
    }
}

fn other_end(lot: Option<Id>, sub: Option<u16>) -> Option<(Id, u16)>
    ensures { result ≡ other_end lot sub }
{
    match lot {
        None => None,
        Some(lot) => match sub {
            None => None,
            Some(sub) => Some((lot, sub)),
        },
    }
}

fn entered_by(row: &BookedRow) -> Option<(Id, u16)>
    ensures { result ≡ entered_by row.now.kind_code row.now }
{
    match row.kind_code {
        MovementKindCode::Received | MovementKindCode::Produced => Some((row.lot, row.sub)),
        MovementKindCode::Consumed | MovementKindCode::Scrapped => None,
        MovementKindCode::Divided | MovementKindCode::Split | MovementKindCode::Merged => {
            other_end(row.lot2, row.sub2)
        }
    }
}

fn left_by(row: &BookedRow) -> Option<(Id, u16)>
    ensures { result ≡ left_by row.now.kind_code row.now }
{
    match row.kind_code {
        MovementKindCode::Received | MovementKindCode::Produced => None,
        _ => Some((row.lot, row.sub)),
    }
}

/// The rows that bring their amount to the sublot.
pub fn entries<'a>(entered: &'a Grouped<BySublotEntered>, lot: Id, number: u16) -> &'a [BookedRow]
    ensures { result.now ≡ entries entered.now.rows.now lot number }
{
    entered.at((lot, number))
}

/// The rows that take their amount from the sublot.
pub fn exits<'a>(left: &'a Grouped<BySublotLeft>, lot: Id, number: u16) -> &'a [BookedRow]
    ensures { result.now ≡ exits left.now.rows.now lot number }
{
    left.at((lot, number))
}

/// The amounts of the rows in all.
pub fn total_booked(rows: &[BookedRow]) -> u128
    ensures total { result ≡ total_booked rows.now }
    ensures small { result < 2 ^ 127 }
{
    let mut total = 0;
    for row in rows {
        total += u128::from(row.amount.get());
    }
    total
}
