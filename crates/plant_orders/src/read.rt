ghost use Rattle.std.specs.Prelude.{◌≡◌, IfOk, IfErr, ℕ, List};
ghost use Rattle.csv.specs.Records.{fields_of};
ghost use Rattle.csv.specs.Reading.{strip_bom, error_kind};
ghost use Rattle.csv.specs.declared.parser.State.TheVariants as st;
ghost use Rattle.plant_orders.specs.Orders.{Gives, orders_of, read_fault};
ghost use Rattle.plant_orders.specs.ReaderPosition.{ReaderIsAt, NextOf};

use crate::fault::{CsvFault, CsvKind, HEADER, MEMORY};
use crate::row::{is_header, order_of};
use csv::{ByteRecord, Error, ErrorKind, Reader, ReaderBuilder};
use plant_base::{Items, OrderRow};
use std::alloc::Global;

/// The most bytes of an order file, a byte order mark among them.
pub const LONGEST_FILE: usize = 262_144;

/// The orders of an order file, in its rows' order.
///
/// A file is read as comma-separated values: fields may be in quotes, a record ends with LF, CR or CR LF, and empty
/// lines are skipped; a leading UTF-8 byte order mark is skipped too. The first record is exactly
/// `order,recipe,version,size,due,priority`, and each further one an order: two ids, a version of 1 to 999, an amount, a
/// due date `YYYY-MM-DD` and a priority of 1 to 9, each number of 1 to 16 digits. There are at most 1,000 rows.
///
/// A fault is the first in the file, and in a row the first in the order of the fields; `Shape`, of a row with another
/// number of fields, comes before them. `TooLong` comes before all else. `Memory`, of row 0, comes where memory was
/// refused.
#[tactic(auto, unfolding(crate::specs::Orders::orders_of))]
pub fn read_orders(alloc: Global, bytes: &[u8]) -> Result<Items<OrderRow>, CsvFault>
    ensures { Gives result (orders_of bytes.now) }
{
    if bytes.len() > LONGEST_FILE {
        return Err(CsvFault {
            row: 0,
            kind: CsvKind::TooLong,
        });
    }
    let mut reader = reader(alloc, bytes);
    let mut row = ByteRecord::new(alloc);
    if !next(&mut reader, &mut row)? {
        return Err(HEADER);
    }
    if !is_header(&row) {
        return Err(HEADER);
    }
    let mut orders = Vec::new(alloc);
    for n in 0..1000u16 {
        if !next(&mut reader, &mut row)? {
            return Ok(Items::new(orders));
        }
        match order_of(&row) {
            Ok(order) => {
                if orders.push(order).is_err() {
                    return Err(MEMORY);
                }
            }
            Err(kind) => return Err(CsvFault { row: n + 1, kind }),
        }
    }
    if next(&mut reader, &mut row)? {
        return Err(CsvFault {
            row: 1001,
            kind: CsvKind::TooManyRows,
        });
    }
    Ok(Items::new(orders))
}

// A reader at the start of a text, past a byte order mark. The header is a record like the others, and a record may
// be of any length.
pub(crate) fn reader(alloc: Global, bytes: &[u8]) -> Reader<&[u8]>
    ensures { ReaderIsAt result st.StartRecord (strip_bom bytes.entry.now) }
{
    ReaderBuilder::new()
        .has_headers(false)
        .flexible(true)
        .from_reader(alloc, bytes)
}

// The fault of a read that failed. A source in memory fails for want of memory alone.
fn fault_of(error: &Error) -> CsvFault
    ensures { result ≡ read_fault (error_kind error.now) }
{
    match error.kind() {
        ErrorKind::Io(_) | ErrorKind::OutOfMemory => MEMORY,
        ErrorKind::UnequalLengths { .. }
        | ErrorKind::Utf8 { .. }
        | ErrorKind::Serialize(_)
        | ErrorKind::Deserialize { .. } => CsvFault {
            row: 0,
            kind: CsvKind::Shape,
        },
    }
}

// The next record. A reader that takes records of all lengths fails for want of memory alone.
pub(crate) fn next<'t>(
    reader: &mut Reader<&'t [u8]>,
    row: &mut ByteRecord,
) -> Result<bool, CsvFault>
    ensures reads { IfOk result (λ found. (s : _) (text : List ℕ)
        → ReaderIsAt reader.old s text → NextOf s text found reader.new (fields_of row.new)) }
    ensures memory { IfErr result (λ e. (s : _) (text : List ℕ) → ReaderIsAt reader.old s text → e ≡ MEMORY) }
{
    match reader.read_byte_record(row) {
        Ok(found) => Ok(found),
        Err(error) => Err(fault_of(&error)),
    }
}
