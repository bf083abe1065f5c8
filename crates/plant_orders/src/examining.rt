//! Every fault of an order file, for whoever mends it.
ghost use Rattle.std.specs.Prelude.{◌≡◌, ◌++◌, ◌∷◌, [], ℕ, List, IfOk, OnOk};
ghost use Rattle.csv.specs.Records.{fields_of, field_at};
ghost use Rattle.csv.specs.declared.parser.State.TheVariants as st;
ghost use Rattle.plant_orders.specs.EveryFault.{is_valid, place_of, text_or_none, whole_fault};
ghost use Rattle.plant_orders.specs.EveryFault.{field_fault, field_faults, row_faults, row_orders};
ghost use Rattle.plant_orders.specs.EveryFault.{faults_of, numbered_orders_of};
ghost use Rattle.plant_orders.specs.ReaderPosition.{ReaderIsAt, NextOf};

use crate::fault::{CsvFault, CsvKind};
use crate::read::{LONGEST_FILE, next, reader};
use crate::row::{has_all_fields, is_header, is_valid, order_of};
use csv::{ByteRecord, Reader};
use plant_base::{Items, OrderRow};
use std::alloc::{AllocError, Global};

/// A fault of an order file, and the text at fault.
#[derive(Drop)]
pub struct RecordFault {
    /// The row, and what is wrong with it.
    pub fault: CsvFault,
    /// The field that breaks its rule, as the file has it; empty for a fault of a row or of the file as a whole.
    pub found: Items<u8>,
}

/// An order of a file, and the number of its row.
#[derive(Clone, Copy)]
pub struct NumberedOrder {
    /// The row among the records after the header, from 1 on.
    pub row: u16,
    /// The order.
    pub order: OrderRow,
}

/// What an order file holds, good and bad.
#[derive(Drop)]
pub struct Examined {
    /// Its faults, in the order of its rows and of their fields; none of an order file.
    pub faults: Items<RecordFault>,
    /// The orders of those rows that have no fault.
    pub orders: Items<NumberedOrder>,
}

/// The kinds of fault that a field can have, in the order of the fields.
const FIELD_KINDS: [CsvKind; 6] = [
    CsvKind::Order,
    CsvKind::Recipe,
    CsvKind::Version,
    CsvKind::Size,
    CsvKind::Due,
    CsvKind::Priority,
];

/// A fault of a row or of the file, of no field.
fn whole_fault(alloc: Global, row: u16, kind: CsvKind) -> RecordFault
    ensures { result ≡ whole_fault row kind }
{
    RecordFault {
        fault: CsvFault { row, kind },
        found: Items::new(Vec::new(alloc)),
    }
}

/// The position of the field that a kind of fault is about; after all fields for a fault of a row or of the file.
fn place_of(kind: CsvKind) -> usize
    ensures { result ≡ place_of kind }
{
    match kind {
        CsvKind::Order => 0,
        CsvKind::Recipe => 1,
        CsvKind::Version => 2,
        CsvKind::Size => 3,
        CsvKind::Due => 4,
        CsvKind::Priority => 5,
        _ => 6,
    }
}

/// The bytes of a field, none where the row hasn't one there.
fn found_at(alloc: Global, row: &ByteRecord, place: usize) -> Result<Items<u8>, AllocError>
    ensures { IfOk result (λ found. found ≡ text_or_none (field_at (fields_of row.now) place)) }
{
    let mut found = Vec::new(alloc);
    if let Some(field) = row.get(place) {
        found.extend_from_slice(field)?;
    }
    Ok(Items::new(found))
}

/// Adds the fault of a field to the others, where it breaks its rule.
fn add_field_fault(
    alloc: Global,
    faults: &mut Vec<RecordFault>,
    number: u16,
    row: &ByteRecord,
    kind: CsvKind,
) -> Result<(), AllocError>
    ensures { OnOk result (faults.new.items ≡ faults.old.items ++ field_fault number (fields_of row.now) kind) }
{
    if is_valid(row, kind) {
        return Ok(());
    }
    let found = found_at(alloc, row, place_of(kind))?;
    faults.push(RecordFault {
        fault: CsvFault { row: number, kind },
        found,
    })?;
    Ok(())
}

/// The faults of the fields of these kinds, in their order.
fn field_faults(
    alloc: Global,
    number: u16,
    row: &ByteRecord,
    kinds: &[CsvKind],
) -> Result<Vec<RecordFault>, AllocError>
    ensures { IfOk result (λ faults. faults.items ≡ field_faults number (fields_of row.now) kinds.now) }
{
    let mut faults = Vec::new(alloc);
    for kind in kinds {
        add_field_fault(alloc, &mut faults, number, row, *kind)?;
    }
    Ok(faults)
}

/// What is wrong with the row of this number.
#[tactic(auto, unfolding(crate::specs::EveryFault::row_faults))]
fn row_faults(alloc: Global, number: u16, row: &ByteRecord) -> Result<Vec<RecordFault>, AllocError>
    ensures { IfOk result (λ faults. faults.items ≡ row_faults number (fields_of row.now)) }
{
    if has_all_fields(row) {
        return field_faults(alloc, number, row, &FIELD_KINDS);
    }
    let mut faults = Vec::new(alloc);
    faults.push(whole_fault(alloc, number, CsvKind::Shape))?;
    Ok(faults)
}

/// What a record in the middle of a file adds to what was examined before.
#[derive(Drop)]
struct ExaminedRows {
    faults: Vec<RecordFault>,
    orders: Vec<NumberedOrder>,
}

/// Adds the faults of the row of this number, and the order that it is.
fn add_row(
    alloc: Global,
    lists: &mut ExaminedRows,
    number: u16,
    row: &ByteRecord,
) -> Result<(), AllocError>
    ensures faults { OnOk result (lists.new.faults.items ≡ lists.old.faults.items ++ row_faults number (fields_of row.now)) }
    ensures orders { OnOk result (lists.new.orders.items ≡ lists.old.orders.items ++ row_orders number (fields_of row.now)) }
{
    let mut found = row_faults(alloc, number, row)?;
    lists.faults.append(&mut found)?;
    if let Ok(order) = order_of(row) {
        lists.orders.push(NumberedOrder { row: number, order })?;
    }
    Ok(())
}

/// Every fault of an order file, and the orders among its rows. That the first fault is that of
/// [`read_orders`](crate::read_orders), and that there is none exactly where that gives the orders, is only tested. A file
/// that is longer than 262,144 bytes, and one without the header, has that fault alone; after the 1,000th row no more is
/// looked at than whether there is one.
///
/// The error is want of memory.
#[tactic(auto, unfolding(crate::specs::EveryFault::faults_of, crate::specs::EveryFault::numbered_orders_of))]
pub fn examine(alloc: Global, bytes: &[u8]) -> Result<Examined, AllocError>
    ensures faults { IfOk result (λ examined. examined.faults ≡ faults_of bytes.now) }
    ensures orders { IfOk result (λ examined. examined.orders ≡ numbered_orders_of bytes.now) }
{
    if bytes.len() > LONGEST_FILE {
        return alone(alloc, CsvKind::TooLong);
    }
    let mut reader = reader(alloc, bytes);
    let mut row = ByteRecord::new(alloc);
    if !next_row(&mut reader, &mut row)? {
        return alone(alloc, CsvKind::Header);
    }
    if !is_header(&row) {
        return alone(alloc, CsvKind::Header);
    }
    let mut lists = ExaminedRows {
        faults: Vec::new(alloc),
        orders: Vec::new(alloc),
    };
    for n in 0..1000u16 {
        if !next_row(&mut reader, &mut row)? {
            return Ok(examined_of(lists));
        }
        add_row(alloc, &mut lists, n + 1, &row)?;
    }
    if next_row(&mut reader, &mut row)? {
        return too_many(alloc, lists);
    }
    Ok(examined_of(lists))
}

/// The lists that were examined, of a file that has more rows.
fn too_many(alloc: Global, mut lists: ExaminedRows) -> Result<Examined, AllocError>
    ensures faults { IfOk result (λ examined. examined.faults ≡ lists.faults.items ++ whole_fault 1001 CsvKind.TooManyRows ∷ []) }
    ensures orders { IfOk result (λ examined. examined.orders ≡ lists.orders.items) }
{
    lists
        .faults
        .push(whole_fault(alloc, 1001, CsvKind::TooManyRows))?;
    Ok(examined_of(lists))
}

/// What was examined of a file that has one fault, of row 0.
fn alone(alloc: Global, kind: CsvKind) -> Result<Examined, AllocError>
    ensures faults { IfOk result (λ examined. examined.faults ≡ whole_fault 0 kind ∷ []) }
    ensures orders { IfOk result (λ examined. examined.orders ≡ []) }
{
    let mut faults = Vec::new(alloc);
    faults.push(whole_fault(alloc, 0, kind))?;
    Ok(Examined {
        faults: Items::new(faults),
        orders: Items::new(Vec::new(alloc)),
    })
}

/// The lists that were examined.
fn examined_of(lists: ExaminedRows) -> Examined
    ensures faults { result.faults ≡ lists.faults.items }
    ensures orders { result.orders ≡ lists.orders.items }
{
    Examined {
        faults: Items::new(lists.faults),
        orders: Items::new(lists.orders),
    }
}

/// The next record. A reader in memory that takes records of all lengths fails for want of memory alone.
fn next_row<'t>(reader: &mut Reader<&'t [u8]>, row: &mut ByteRecord) -> Result<bool, AllocError>
    ensures { IfOk result (λ found. (s : _) (text : List ℕ)
        → ReaderIsAt reader.old s text → NextOf s text found reader.new (fields_of row.new)) }
{
    match next(reader, row) {
        Ok(found) => Ok(found),
        Err(_) => Err(AllocError),
    }
}
