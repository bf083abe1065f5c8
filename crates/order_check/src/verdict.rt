//! The verdict on an order file.
ghost use Rattle.std.specs.Prelude.{◌≡◌, ◌⊎◌, ℕ, List, IfOk, IfErr, Some, codes, decimal};
ghost use Rattle.plant_base.specs.{Agrees};
ghost use Rattle.plant_orders.specs.{IsExaminedOf};
ghost use Rattle.order_check.specs.Verdicts.{count_text, fault_text, is_good, verdict_of};

use crate::conflicts::{Conflict, conflicts_among};
use crate::reason::reason_of;
use desk_cli::CheckFault;
use plant_base::Items;
use plant_orders::{CsvFault, Examined, OrdersFault, RecordFault, examine_from};
use std::alloc::{AllocError, Global};
use std::fmt;
use std::io::Read;

/// The verdict on an order file.
#[derive(Drop)]
pub(crate) struct FileVerdict {
    /// Its faults, in the order of its rows and of their fields.
    pub(crate) faults: Items<RecordFault>,
    /// The orders that conflict with earlier ones, among those rows that have no fault.
    pub(crate) conflicts: Items<Conflict>,
    /// How many rows are orders.
    pub(crate) orders: usize,
}

impl FileVerdict {
    /// Whether the file is one of orders that an import takes, whatever is in the desk.
    pub(crate) fn is_good(&self) -> bool
        ensures { result ≡ is_good self.now }
    {
        self.faults.as_slice().is_empty() && self.conflicts.as_slice().is_empty()
    }
}

/// The line that says how many orders a valid file has.
#[derive(Clone, Copy)]
pub(crate) struct Count(pub(crate) usize);

impl fmt::Display for Count {
    ghost output = { λ count. Some (count_text count.0) };

    fn fmt<W: fmt::Write>(&self, f: &mut fmt::Formatter<W>) -> fmt::Result {
        let count = self.0;
        write!(f, "{count} orders")
    }
}

/// The line that says what is wrong.
#[derive(Clone, Copy)]
struct Wrong(CsvFault);

impl fmt::Display for Wrong {
    ghost output = { λ wrong. Some (fault_text wrong.0) };

    fn fmt<W: fmt::Write>(&self, f: &mut fmt::Formatter<W>) -> fmt::Result {
        let fault = self.0;
        let reason = reason_of(fault.kind);
        write!(f, "{fault}: {reason}")
    }
}

/// The most bytes of a field that are shown.
const MOST_SHOWN: usize = 60;

/// The text of a fault: what is wrong, and of a field that isn't empty also its first bytes, as C writes those that aren't printable ASCII,
/// and ` ..` where there are more.
#[derive(Clone, Copy)]
pub(crate) struct FaultLine<'a>(pub(crate) &'a RecordFault);

impl fmt::Display for FaultLine<'_> {
    fn fmt<W: fmt::Write>(&self, f: &mut fmt::Formatter<W>) -> fmt::Result {
        let wrong = Wrong(self.0.fault);
        write!(f, "{wrong}")?;
        let found = self.0.found.as_slice();
        if found.is_empty() {
            return Ok(());
        }
        let shown = found[..found.len().min(MOST_SHOWN)].escape_ascii();
        let rest = if found.len() > MOST_SHOWN { " .." } else { "" };
        write!(f, "; it is {shown}{rest}")
    }
}

/// The verdict on the order file that a reader gives to its end. No more is read of it than shows that it is too long.
///
/// `Read` comes where a read failed, and `Memory` where memory was refused. No other fault comes.
///
/// In the clauses, `bytes` are those that the reader has left, where it knows them, and some bytes where it knows none.
pub(crate) fn judge<R: Read>(alloc: Global, reader: &mut R) -> Result<FileVerdict, CheckFault>
    ensures judged { IfOk result (λ verdict. (bytes : List ℕ) × Agrees (R.remaining reader.old) bytes
        × (verdict ≡ verdict_of bytes)) }
    ensures cause { IfErr result (λ fault. (fault ≡ CheckFault.Read) ⊎ (fault ≡ CheckFault.Memory)) }
{
    match examine_from(alloc, reader) {
        Ok(examined) => judge_examined(alloc, examined),
        Err(OrdersFault::Memory) => Err(CheckFault::Memory),
        Err(OrdersFault::Read) | Err(OrdersFault::Csv(_)) => Err(CheckFault::Read),
    }
}

/// The verdict on a file that was examined. The only fault is want of memory.
fn judge_examined(alloc: Global, examined: Examined) -> Result<FileVerdict, CheckFault>
    ensures judged { (bytes : List ℕ) → IsExaminedOf bytes examined
        → IfOk result (λ verdict. verdict ≡ verdict_of bytes) }
    ensures cause { IfErr result (λ fault. fault ≡ CheckFault.Memory) }
{
    let orders = examined.orders.as_slice();
    match conflicts_among(alloc, orders, orders) {
        Ok(conflicts) => Ok(FileVerdict {
            orders: orders.len(),
            conflicts: Items::new(conflicts),
            faults: examined.faults,
        }),
        Err(AllocError) => Err(CheckFault::Memory),
    }
}
