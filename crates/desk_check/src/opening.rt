//! A store over the bytes of a file and of its log, which are in memory.
ghost use Rattle.std.specs.Prelude.{IfOk, IsTrue};
ghost use Rattle.sqlite_disk.specs.Memory.{memory_is_usable};

use file_reports::{
    FileReport, OpenError, open_error_in, open_error_of, report_on_store, with_binder,
};
use sqlite::{Connection, FileStore, Files, Options};
use sqlite_disk::{Disk, Memory};
use std::alloc::Global;

/// The bytes as a file in memory. `Memory` where there is none.
fn memory_of(alloc: Global, bytes: &[u8]) -> Result<Memory, OpenError>
    ensures { IfOk result (λ memory. IsTrue (memory_is_usable memory)) }
{
    let mut memory = Memory::new(alloc);
    if bytes.is_empty() {
        return Ok(memory);
    }
    match memory.write_at(0, bytes) {
        Ok(()) => Ok(memory),
        Err(_) => Err(OpenError::Memory),
    }
}

/// A store over these bytes of a log and of a file, which is opened as one over files is. The obstacle is `Memory` or the error
/// with which it doesn't open.
fn store_over(
    alloc: Global,
    log: &[u8],
    db: &[u8],
) -> Result<Connection<FileStore<Memory>>, OpenError> {
    let log = memory_of(alloc, log)?;
    let db = memory_of(alloc, db)?;
    match Connection::open_files(alloc, Files { log, db }, Options::new(7)) {
        Ok(connection) => Ok(connection),
        Err((error, _)) => Err(open_error_of(error)),
    }
}

/// The report on the store that these bytes of a log and of a file hold, or why it doesn't open.
pub(crate) fn report_on_bytes(
    alloc: Global,
    log: &[u8],
    db: &[u8],
) -> Result<FileReport, OpenError> {
    let mut connection = store_over(alloc, log, db)?;
    match report_on_store(alloc, &mut connection) {
        Ok(file_report) => Ok(with_binder(file_report, connection.schema())),
        Err(fault) => Err(open_error_in(fault)),
    }
}
