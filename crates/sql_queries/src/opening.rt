ghost use Rattle.std.specs.Prelude.{◌≡◌, ◌<◌, ◌≤◌, false, IsTrue, IfOk, IfErr};
ghost use Rattle.sqlite_std_file.specs.File.{file_is_usable};
ghost use Rattle.sqlite_trees.specs.View.{doubt, IsClean, IsQuiet};
ghost use Rattle.sqlite.specs.State.{HasCleanDisk, Opens, IsLive};
ghost use Rattle.sqlite.specs.Steps.{IsFresh, over_memory};
ghost use Rattle.sqlite.specs.Held.{state};
ghost use Rattle.sqlite.specs.Files.{file_state};
ghost use Rattle.sql_queries.specs.Opened.{IsNewlyOpened};
ghost use Rattle.sql_queries.specs.Ordered.{IsRising};

use sqlite::{Alter, Connection, Error, ErrorCode, FileFrom, FileStore, MemStore, Start};
use sqlite_disk::{Disk, Files};
use sqlite_pager::Options;
use sqlite_std_file::OpenError;
use sqlite_wal::{PageSize, probe_page_size};
use std::alloc::{AllocError, Global};
use std::hash::{BuildHasher, RandomState};
use std::io::{self, ErrorKind};

/// How many bytes of written pages a transaction over a file keeps in memory before they go to the log.
const MOST_UNLOGGED: usize = 0x80_0000;

/// How many bytes of pages the log of a file holds before they are copied into the file.
const MOST_LOGGED: usize = 0x40_0000;

/// A connection over a store that was just opened: no transaction is open, it shows what was committed and a stop leaves
/// just that, and the rows of each table are in the order of their rowids. Where it doesn't open, the error is the store's,
/// and comes with the store.
pub fn open_over<S: Alter + Drop>(alloc: Global, store: S) -> Result<Connection<S>, (Error, S)>
    requires { IsClean (S.Store.view store) → IsFresh (S.Store.view store) }
    ensures opens { IfOk result (λ c. HasCleanDisk (state S.Store c)
        → Opens (state S.Store c) × IsLive (state S.Store c)) }
    ensures rising { IfOk result (λ c. HasCleanDisk (state S.Store c) → IsRising (state S.Store c).now) }
    ensures newly { IfOk result (λ c. HasCleanDisk (state S.Store c) → IsNewlyOpened (state S.Store c)) }
    ensures rests { IfOk result (λ c. (state S.Store c).in_transaction ≡ false) }
    ensures trees { IfOk result (λ c. HasCleanDisk (state S.Store c)
        → (state S.Store c).now.trees ≡ (S.Store.view store).trees) }
    ensures clean { IfOk result (λ c. doubt (S.Store.view store).is_clean ≤ doubt
        (state S.Store c).is_clean) }
    ensures unharmed { IfErr result
        (λ e. IsQuiet S.Store.view S.Store.faults S.Store.recovers S.Store.is_shielded store e.1) }
{
    Connection::over(alloc, store)
}

/// The same connection opened anew, as [`open_over`] opens it. What it answers where it doesn't open: the store's error,
/// and the store.
pub fn reopen<S: Alter + Drop>(
    alloc: Global,
    conn: Connection<S>,
) -> Result<Connection<S>, (Error, S)>
    ensures opens { IfOk result (λ c. HasCleanDisk (state S.Store c)
        → Opens (state S.Store c) × IsLive (state S.Store c)) }
    ensures rising { IfOk result (λ c. HasCleanDisk (state S.Store c) → IsRising (state S.Store c).now) }
    ensures newly { IfOk result (λ c. HasCleanDisk (state S.Store c) → IsNewlyOpened (state S.Store c)) }
    ensures rests { IfOk result (λ c. (state S.Store c).in_transaction ≡ false) }
    ensures trees { IfOk result (λ c. HasCleanDisk (state S.Store c)
        → (state S.Store c).now.trees ≡ (state S.Store conn).committed.trees) }
{
    let store = conn.into_store();
    if store.is_broken() {
        return Err((Error::SqliteFailure(ErrorCode::Closed), store));
    }
    open_over(alloc, store)
}

/// A connection over a new store in memory, as [`open_over`] opens one. The only error is that memory was refused.
pub fn open_in_memory(alloc: Global) -> Result<Connection<MemStore>, AllocError>
    ensures newly { IfOk result (λ c. IsNewlyOpened (state over_memory c)) }
    ensures rests { IfOk result (λ c. (state over_memory c).in_transaction ≡ false) }
{
    Connection::open_in_memory(alloc)
}

/// A connection over a file, which is made where it isn't there, as [`open_over`] opens one. `start` represents what the
/// file holds before it is opened. The error is the store's where the file doesn't open.
pub fn open_file<S: Start>(
    rt: &HostRuntime,
    file: &str,
    start: S,
) -> Result<Connection<FileStore<FileFrom<S>>>, Error>
    ensures newly { IfOk result (λ c. HasCleanDisk (file_state c) → IsNewlyOpened (file_state c)) }
    ensures rests { IfOk result (λ c. (file_state c).in_transaction ≡ false) }
{
    let mut files = open_pair(rt, file, start)?;
    let options = file_options(rt, &mut files)?;
    match Connection::open_files_with(rt.alloc(), files, options, false) {
        Ok(mut connection) => {
            connection.set_clock(rt);
            Ok(connection)
        }
        Err((error, _)) => Err(error),
    }
}

/// The file of this name and its log. A name that means a store in memory or an address isn't opened.
fn open_pair<S: Start>(rt: &HostRuntime, file: &str, start: S) -> Result<Files<FileFrom<S>>, Error>
    ensures log { IfOk result (λ files. IsTrue (file_is_usable S.Start files.log)) }
    ensures db { IfOk result (λ files. IsTrue (file_is_usable S.Start files.db)) }
{
    if file == ":memory:" || file.starts_with("file:") {
        return Err(Error::SqliteFailure(ErrorCode::CannotOpen));
    }
    match sqlite_std_file::open(rt, file, start) {
        Ok(files) => Ok(files),
        Err(error) => Err(Error::SqliteFailure(open_code(error))),
    }
}

/// Why two files didn't open.
fn open_code(error: OpenError) -> ErrorCode {
    match error {
        OpenError::OutOfMemory => ErrorCode::OutOfMemory,
        OpenError::Busy => ErrorCode::DatabaseBusy,
        OpenError::Io(error) if error.kind() == ErrorKind::OutOfMemory => ErrorCode::OutOfMemory,
        OpenError::Io(_) | OpenError::HotJournal => ErrorCode::CannotOpen,
    }
}

/// How a file is kept in memory and logged, with a number drawn at random for its log's salts; where none is given the file can't be opened.
fn file_options<S: Start>(
    rt: &HostRuntime,
    files: &mut Files<FileFrom<S>>,
) -> Result<Options, Error>
    requires log { IsTrue (file_is_usable S.Start files.old.log) }
    requires db { IsTrue (file_is_usable S.Start files.old.db) }
    ensures log { IsTrue (file_is_usable S.Start files.new.log) }
    ensures db { IsTrue (file_is_usable S.Start files.new.db) }
{
    let size = files.db.len().unwrap_or(0);
    let page = page_bytes(probe_page_size(files));
    let random = RandomState::new(rt).map_err(|_| Error::SqliteFailure(ErrorCode::CannotOpen))?;
    Ok(Options {
        cache_pages: cached_bytes(size) / page,
        spill_pages: MOST_UNLOGGED / page,
        checkpoint_frames: MOST_LOGGED / page,
        seed: random.hash_one(&0u8),
    })
}

/// The page size that was found, or that of a file which isn't made yet.
fn page_bytes(found: io::Result<Option<PageSize>>) -> usize
    ensures { 0 < result }
{
    match found {
        Ok(Some(size)) => size.bytes(),
        Ok(None) | Err(_) => 4096,
    }
}

/// How many bytes of its pages are kept of a file of so many bytes: all, but 8 MB at least, since it may grow, and 64 MB at most.
fn cached_bytes(size: usize) -> usize
    ensures least { 0x80_0000 ≤ result }
    ensures most { result ≤ 0x400_0000 }
    ensures whole { size ≤ 0x400_0000 → size ≤ result }
{
    size.clamp(0x80_0000, 0x400_0000)
}
