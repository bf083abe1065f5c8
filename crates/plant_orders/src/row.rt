// The fields of one record.
ghost use Rattle.std.specs.Prelude.{◌≡◌, ◌≤◌, ◌==◌, length, IfSome, option_and_then};
ghost use Rattle.csv.specs.Records.{fields_of, field_at};
ghost use Rattle.plant_base.specs.{greatest_amount};
ghost use Rattle.plant_orders.specs.EveryFault.{is_valid};
ghost use Rattle.plant_orders.specs.Numbers.{bounded};
ghost use Rattle.plant_orders.specs.Orders.{id_of, due_of, field_is, is_header, order_of};

use crate::fault::CsvKind;
use csv::ByteRecord;
use plant_base::{
    Amount, Due, GREATEST_AMOUNT, GREATEST_PRIORITY, GREATEST_VERSION, Id, OrderRow, read_digits,
};

/// How many fields a record has.
const FIELDS: usize = 6;

/// The most digits of a number.
const MOST_DIGITS: usize = 16;

/// Whether the record has as many fields as an order.
pub(crate) fn has_all_fields(row: &ByteRecord) -> bool
    ensures { result ≡ (length (fields_of row.now) == 6) }
{
    row.len() == FIELDS
}

/// Whether the field of which a kind of fault speaks keeps its rule; a fault of a row or of the file speaks of none.
pub(crate) fn is_valid(row: &ByteRecord, kind: CsvKind) -> bool
    ensures { result ≡ is_valid (fields_of row.now) kind }
{
    match kind {
        CsvKind::Order => id_at(row, 0).is_some(),
        CsvKind::Recipe => id_at(row, 1).is_some(),
        CsvKind::Version => number_at(row, 2, u64::from(GREATEST_VERSION)).is_some(),
        CsvKind::Size => amount_at(row, 3).is_some(),
        CsvKind::Due => due_at(row, 4).is_some(),
        CsvKind::Priority => number_at(row, 5, u64::from(GREATEST_PRIORITY)).is_some(),
        _ => true,
    }
}

/// Whether the record is the header.
pub(crate) fn is_header(row: &ByteRecord) -> bool
    ensures { result ≡ is_header (fields_of row.now) }
{
    row.len() == FIELDS
        && is_field(row, 0, b"order")
        && is_field(row, 1, b"recipe")
        && is_field(row, 2, b"version")
        && is_field(row, 3, b"size")
        && is_field(row, 4, b"due")
        && is_field(row, 5, b"priority")
}

/// The order that the record is, or its first fault.
#[tactic(auto, unfolding(crate::specs::Orders::order_of))]
pub(crate) fn order_of(row: &ByteRecord) -> Result<OrderRow, CsvKind>
    ensures { result ≡ order_of (fields_of row.now) }
{
    if row.len() != FIELDS {
        return Err(CsvKind::Shape);
    }
    let order = id_at(row, 0).ok_or(CsvKind::Order)?;
    let recipe = id_at(row, 1).ok_or(CsvKind::Recipe)?;
    let version = number_at(row, 2, u64::from(GREATEST_VERSION)).ok_or(CsvKind::Version)?;
    let size = amount_at(row, 3).ok_or(CsvKind::Size)?;
    let due = due_at(row, 4).ok_or(CsvKind::Due)?;
    let priority = number_at(row, 5, u64::from(GREATEST_PRIORITY)).ok_or(CsvKind::Priority)?;
    Ok(OrderRow {
        order,
        recipe,
        version: version as u16,
        size,
        due,
        priority: priority as u8,
    })
}

fn is_field(row: &ByteRecord, index: usize, text: &[u8]) -> bool
    ensures { result ≡ field_is (field_at (fields_of row.now) index) text.now }
{
    match row.get(index) {
        Some(field) => field == text,
        None => false,
    }
}

fn id_at(row: &ByteRecord, index: usize) -> Option<Id>
    ensures { result ≡ option_and_then id_of (field_at (fields_of row.now) index) }
{
    match row.get(index) {
        Some(field) => Id::read(field),
        None => None,
    }
}

// A number of 1 to the greatest.
#[tactic(auto, unfolding(crate::specs::Numbers::bounded))]
fn number_at(row: &ByteRecord, index: usize, greatest: u64) -> Option<u64>
    ensures value { result ≡ option_and_then (bounded greatest) (field_at (fields_of row.now) index) }
    ensures least { IfSome result (λ number. 1 ≤ number) }
    ensures greatest { IfSome result (λ number. number ≤ greatest) }
{
    match row.get(index) {
        Some(field) => {
            let number = read_digits(field, MOST_DIGITS)?;
            if 1 <= number && number <= greatest {
                Some(number)
            } else {
                None
            }
        }
        None => None,
    }
}

fn amount_at(row: &ByteRecord, index: usize) -> Option<Amount>
    ensures { result ≡ option_and_then (bounded greatest_amount) (field_at (fields_of row.now) index) }
{
    match number_at(row, index, GREATEST_AMOUNT) {
        Some(number) => Amount::new(number),
        None => None,
    }
}

fn due_at(row: &ByteRecord, index: usize) -> Option<Due>
    ensures { result ≡ option_and_then due_of (field_at (fields_of row.now) index) }
{
    match row.get(index) {
        Some(field) => Due::read(field).ok(),
        None => None,
    }
}
