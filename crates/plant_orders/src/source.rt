//! The reading of an order file from a source, of which no more is read than has to be.
ghost use Rattle.std.specs.Prelude.{◌≡◌, ◌≢◌, ◌⊎◌, ℕ, List, IfOk, IfErr, Ok};
ghost use Rattle.std.specs.IoError.{error_kind};
ghost use Rattle.plant_orders.specs.Orders.{orders_of};
ghost use Rattle.plant_orders.specs.EveryFault.{IsExaminedOf};
ghost use Rattle.plant_base.specs.{Agrees};
ghost use Rattle.plant_orders.specs.FaultsOfFiles.{FaultOfFile, fault_of_kind, read_count};

use crate::examining::{Examined, examine};
use crate::fault::{CsvFault, CsvKind};
use crate::read::{LONGEST_FILE, read_orders};
use plant_base::{Items, OrderRow};
use std::alloc::{AllocError, Global};
use std::io;
use std::io::{ErrorKind, Read};
use thiserror::Error;

/// Why a source gives no orders.
#[derive(Clone, Copy, Debug, PartialEq, Eq, Error)]
pub enum OrdersFault {
    /// The first fault of the file, whose kind isn't [`CsvKind::Memory`].
    #[error("{0}")]
    Csv(CsvFault),
    /// A read failed.
    #[error("a read failed")]
    Read,
    /// Memory was refused.
    #[error("out of memory")]
    Memory,
}

/// How a fault of [`read_orders`] is reported: want of memory is no fault of the file.
fn fault_of(fault: CsvFault) -> OrdersFault
    ensures csv { fault.kind ≢ CsvKind.Memory → result ≡ OrdersFault.Csv fault }
    ensures memory { fault.kind ≡ CsvKind.Memory → result ≡ OrdersFault.Memory }
{
    match fault.kind {
        CsvKind::Memory => OrdersFault::Memory,
        _ => OrdersFault::Csv(fault),
    }
}

/// How a failed reading to the end is reported.
fn read_fault(error: &io::Error) -> OrdersFault
    ensures { result ≡ fault_of_kind (error_kind error.now) }
{
    match error.kind() {
        ErrorKind::OutOfMemory => OrdersFault::Memory,
        _ => OrdersFault::Read,
    }
}

/// How many bytes a reading to the end gave, or how its error is reported.
fn read_count(reading: io::Result<usize>) -> Result<usize, OrdersFault>
    ensures { result ≡ read_count reading }
{
    match reading {
        Ok(n) => Ok(n),
        Err(error) => Err(read_fault(&error)),
    }
}

/// The orders of the order file that a reader gives to its end, as [`read_orders`] reads it. No more is read of it than
/// shows that it is too long: one byte more than the longest file.
///
/// `Csv` is the first fault of the file, `Read` comes where a read failed, and `Memory` where memory was refused.
///
/// In the clauses, `bytes` are those that the reader has left, where it knows them, and some bytes where it knows none.
pub fn orders_from<R: Read>(alloc: Global, reader: &mut R) -> Result<Items<OrderRow>, OrdersFault>
    ensures orders { IfOk result (λ orders. (bytes : List ℕ) × Agrees (R.remaining reader.old) bytes
        × (orders_of bytes ≡ Ok orders)) }
    ensures fault { IfErr result (λ fault. (bytes : List ℕ) × Agrees (R.remaining reader.old) bytes
        × FaultOfFile fault (orders_of bytes)) }
{
    let mut bytes = Vec::new(alloc);
    let mut prefix = reader.take(LONGEST_FILE as u64 + 1);
    match read_count(prefix.read_to_end(&mut bytes)) {
        Ok(_count) => orders_in(alloc, &bytes),
        Err(fault) => Err(fault),
    }
}

/// What the order file holds that a reader gives to its end, good and bad, as [`examine`] says. No more is read of it than shows that it is too
/// long: one byte more than the longest file.
///
/// `Read` comes where a read failed, and `Memory` where memory was refused. No other fault comes.
///
/// In the clauses, `bytes` are those that the reader has left, where it knows them, and some bytes where it knows none.
pub fn examine_from<R: Read>(alloc: Global, reader: &mut R) -> Result<Examined, OrdersFault>
    ensures examined { IfOk result (λ examined. (bytes : List ℕ) × Agrees (R.remaining reader.old) bytes
        × IsExaminedOf bytes examined) }
    ensures fault { IfErr result (λ fault. (fault ≡ OrdersFault.Read) ⊎ (fault ≡ OrdersFault.Memory)) }
{
    let mut bytes = Vec::new(alloc);
    let mut prefix = reader.take(LONGEST_FILE as u64 + 1);
    match read_count(prefix.read_to_end(&mut bytes)) {
        Ok(_count) => examine_read(alloc, &bytes),
        Err(fault) => Err(fault),
    }
}

/// What a file holds that was read. The only fault is want of memory.
fn examine_read(alloc: Global, bytes: &[u8]) -> Result<Examined, OrdersFault>
    ensures examined { IfOk result (IsExaminedOf bytes.now) }
    ensures memory { IfErr result (λ fault. fault ≡ OrdersFault.Memory) }
{
    match examine(alloc, bytes) {
        Ok(examined) => Ok(examined),
        Err(AllocError) => Err(OrdersFault::Memory),
    }
}

/// The orders of a file that was read.
fn orders_in(alloc: Global, bytes: &[u8]) -> Result<Items<OrderRow>, OrdersFault>
    ensures orders { IfOk result (λ orders. orders_of bytes.now ≡ Ok orders) }
    ensures fault { IfErr result (λ fault. FaultOfFile fault (orders_of bytes.now)) }
    ensures decoded { IfErr result (λ fault. fault ≢ OrdersFault.Read) }
{
    match read_orders(alloc, bytes) {
        Ok(orders) => Ok(orders),
        Err(fault) => Err(fault_of(fault)),
    }
}
