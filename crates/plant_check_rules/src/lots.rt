//! Lots, and how their sublots came to be.

ghost use Rattle.std.specs.Prelude.{◌≡◌, map};
ghost use Rattle.std.specs.List.{list_all};
ghost use Rattle.plant_check_rules.specs.Lots.{are_from_zero, sublots_among, have_same_kind_code};
ghost use Rattle.plant_check_rules.specs.Lots.{is_of_one_birth, is_one_birth, is_one_division, is_born};
ghost use Rattle.plant_check_rules.specs.Lots.{is_lot_among};

use crate::ends::{BySublotEntered, entries, total_booked};
use grouped_rows::{Grouped, Grouping};
use plant_base::{GREATEST_AMOUNT, Id, Sublot};
use plant_requirements::numbered::are_numbered;
use plant_requirements::stock_keys::Lots;
use plant_tables::{BookedRow, MovementKindCode};

/// Sublots by their lot.
pub struct SublotsOfLots;

impl Grouping for SublotsOfLots {
    ghost use Rattle.std.specs.Prelude.{Some};

    type Row = Sublot;

    type Key = Id;

    ghost key_of = { λ s. Some s.lot };

    fn key(row: &Sublot) -> Option<Id> {
        Some(row.lot)
    }
}

/// The sublots of the lot, in the order of the rows.
pub fn sublots_of<'a>(sublots: &'a Grouped<SublotsOfLots>, lot: Id) -> &'a [Sublot]
    ensures { result.now ≡ sublots_among sublots.now.rows.now lot }
{
    sublots.at(lot)
}

/// Whether a lot has the id.
pub fn has_lot(lots: &Grouped<Lots>, id: Id) -> bool
    ensures { result ≡ is_lot_among lots.now.rows.now id }
{
    lots.has(id)
}

/// Whether there are sublots, numbered from 0 on.
pub fn are_from_zero(sublots: &[Sublot]) -> bool
    ensures { result ≡ are_from_zero (map (λ s. s.number) sublots.now) }
{
    sublots.len() >= 1 && are_numbered(0, sublots)
}

/// Whether the sublot came to be: sublot 0 with its lot, each other one by one division.
pub fn is_born(entered: &Grouped<BySublotEntered>, sublot: &Sublot) -> bool
    ensures { result ≡ is_born entered.now.rows.now sublot.now }
{
    let rows = entries(entered, sublot.lot, sublot.number);
    if sublot.number == 0 {
        is_one_birth(rows)
    } else {
        is_one_division(rows)
    }
}

fn is_one_birth(rows: &[BookedRow]) -> bool
    ensures { result ≡ is_one_birth rows.now }
{
    match rows {
        [] => false,
        [first, ..] => {
            are_of_one_birth(first, rows) && total_booked(rows) <= u128::from(GREATEST_AMOUNT)
        }
    }
}

fn are_of_one_birth(first: &BookedRow, rows: &[BookedRow]) -> bool
    ensures { result ≡ list_all (is_of_one_birth first.now) rows.now }
{
    rows.iter().all(|r| is_of_one_birth(first, r))
}

fn is_of_one_birth(first: &BookedRow, row: &BookedRow) -> bool
    ensures { result ≡ is_of_one_birth first.now row.now }
{
    row.seq == first.seq && have_same_kind_code(first.kind_code, row.kind_code)
}

// Whether both are of one sort that makes a lot.
fn have_same_kind_code(a: MovementKindCode, b: MovementKindCode) -> bool
    ensures { result ≡ have_same_kind_code a b }
{
    match a {
        MovementKindCode::Received => matches!(b, MovementKindCode::Received),
        MovementKindCode::Produced => matches!(b, MovementKindCode::Produced),
        MovementKindCode::Split => matches!(b, MovementKindCode::Split),
        MovementKindCode::Merged => matches!(b, MovementKindCode::Merged),
        _ => false,
    }
}

fn is_one_division(rows: &[BookedRow]) -> bool
    ensures { result ≡ is_one_division rows.now }
{
    match rows {
        [row] => matches!(row.kind_code, MovementKindCode::Divided),
        _ => false,
    }
}
