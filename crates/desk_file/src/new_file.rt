//! A file that isn't there: made under another name, as an empty database with small pages, and then given the name.
ghost use Rattle.std.specs.Prelude.{◌≡◌, ◌⊎◌, ◌↔◌, length, take, IsTrue, IfErr};
ghost use Rattle.desk_file.specs.NewFile.{new_page};

use os::RangeLock;
use sqlite::{Error, ErrorCode};
use std::alloc::AllocError;
use std::fs::{self, File, Metadata, OpenOptions};
use std::io::{self, ErrorKind};
use std::os::fd::AsRawFd;
use std::os::unix::fs::{FileExt, MetadataExt, OpenOptionsExt};

/// The size of a new file's pages, in bytes. A page that is changed is digested, summed and copied whole, so that commands over small
/// pages are cheaper.
const PAGE_SIZE: usize = 1024;

/// The first bytes of the first page, after which it is zero: the header of a database with one page, and the head of a leaf of
/// its table of tables, which is empty.
const FRONT: [u8; 108] = [
    83, 81, 76, 105, 116, 101, 32, 102, 111, 114, 109, 97, 116, 32, 51, 0, 4, 0, 2, 2, 0, 64, 32,
    32, 0, 0, 0, 0, 0, 0, 0, 1, 0, 0, 0, 0, 0, 0, 0, 0, 0, 0, 0, 1, 0, 0, 0, 4, 0, 0, 0, 0, 0, 0,
    0, 0, 0, 0, 0, 1, 0, 0, 0, 0, 0, 0, 0, 0, 0, 0, 0, 0, 0, 0, 0, 0, 0, 0, 0, 0, 0, 0, 0, 0, 0, 0,
    0, 0, 0, 0, 0, 0, 0, 0, 0, 0, 0, 46, 118, 136, 13, 0, 0, 0, 0, 4, 0, 0,
];

/// The one page of a new file, as the opening of the store would write it where pages had this size.
fn first_page() -> [u8; PAGE_SIZE]
    ensures { result ≡ new_page }
{
    let mut page = [0; PAGE_SIZE];
    page[..FRONT.len()].copy_from_slice(&FRONT);
    page
}

/// Whether a file that holds this is one whose making stopped: it is empty, or has the page's first bytes, or all of it.
fn is_begun(found: &[u8]) -> bool
    ensures { IsTrue result ↔ (found.now ≡ take (length found.now) new_page) }
{
    found.len() <= PAGE_SIZE && found == &first_page()[..found.len()]
}

/// Why a new file wasn't made.
#[derive(Clone, Copy)]
enum CreateError {
    /// Another desk is making it.
    Busy,
    /// Memory was refused for a name.
    Memory,
    /// The system didn't do it, or what is next to it is somebody else's.
    Refused,
}

impl From<io::Error> for CreateError {
    fn from(_error: io::Error) -> CreateError {
        CreateError::Refused
    }
}

impl From<AllocError> for CreateError {
    fn from(_error: AllocError) -> CreateError {
        CreateError::Memory
    }
}

/// Makes a file where nothing has its name, nor that of its log: an empty database of one page of 1,024 bytes.
///
/// The page is written to FILE-new and synced; then this file gets the second name FILE, which the system gives it only where
/// no other has made FILE meanwhile, and its first name is taken away. Who does so holds a lock on it. A stop leaves FILE-new, or both as names
/// of one file, or FILE, and the next call goes on from there. The folder is synced by the opening of the store, before that reads.
///
/// What the system refuses isn't reported: where FILE isn't there the opening makes it in its own way, with pages of 4,096
/// bytes, or reports what is wrong. `DatabaseBusy`: another desk is making the file. `OutOfMemory`: memory was refused.
pub(crate) fn make_missing(rt: &HostRuntime, file: &str) -> Result<(), Error>
    ensures { IfErr result (λ e. (e ≡ Error.SqliteFailure ErrorCode.DatabaseBusy) ⊎ (e ≡ Error.SqliteFailure ErrorCode.OutOfMemory)) }
{
    if file.starts_with("file:") {
        return Ok(());
    }
    match make(rt, file) {
        Err(CreateError::Busy) => Err(Error::SqliteFailure(ErrorCode::DatabaseBusy)),
        Err(CreateError::Memory) => Err(Error::SqliteFailure(ErrorCode::OutOfMemory)),
        Ok(()) | Err(CreateError::Refused) => Ok(()),
    }
}

/// Makes the file, or goes on with the making that a stop ended; does nothing where that isn't to be done.
fn make(rt: &HostRuntime, file: &str) -> Result<(), CreateError> {
    let temporary = format!(in rt.alloc(); "{file}-new")?;
    let temporary = temporary.as_str();
    match found_at(rt, file)? {
        Some(found) if found.nlink() == 1 => return Ok(()),
        Some(found) => return end_naming(rt, temporary, found),
        None => {}
    }
    if has_log(rt, file)? || has_log(rt, temporary)? {
        return Ok(());
    }
    let new = open_temporary(rt, temporary)?;
    if !is_ours(rt, temporary, &new)? {
        return Ok(());
    }
    lock(&new)?;
    // Whoever held the lock before may have named the file and used it.
    if !is_ours(rt, temporary, &new)? || !holds_front(&new)? {
        return Ok(());
    }
    let named = fill_and_name(rt, file, temporary, &new);
    fs::remove_file(rt, temporary)?;
    named
}

/// What has this name, a link itself; none where nothing has it.
fn found_at(rt: &HostRuntime, name: &str) -> Result<Option<Metadata>, CreateError> {
    match fs::symlink_metadata(rt, name) {
        Ok(found) => Ok(Some(found)),
        Err(error) if error.kind() == ErrorKind::NotFound => Ok(None),
        Err(_) => Err(CreateError::Refused),
    }
}

/// Whether something has the name of a file's log.
fn has_log(rt: &HostRuntime, file: &str) -> Result<bool, CreateError> {
    let log = format!(in rt.alloc(); "{file}-wal")?;
    Ok(found_at(rt, log.as_str())?.is_some())
}

/// Whether the two are one file.
fn are_one(a: &Metadata, b: &Metadata) -> bool {
    a.dev() == b.dev() && a.ino() == b.ino()
}

/// Takes away the first name of a file that has the second, where a stop left it both: it has a page then, and was never opened.
fn end_naming(rt: &HostRuntime, temporary: &str, named: Metadata) -> Result<(), CreateError> {
    let is_new = named.len() == PAGE_SIZE as u64;
    match found_at(rt, temporary)? {
        Some(found) if is_new && are_one(&found, &named) => Ok(fs::remove_file(rt, temporary)?),
        _ => Ok(()),
    }
}

/// Opens the file of this name, which is a regular one, or makes it; no standard stream that was closed is taken for it.
fn open_temporary(rt: &HostRuntime, temporary: &str) -> Result<File, CreateError> {
    let opened = match found_at(rt, temporary)? {
        Some(found) if !found.is_file() => return Err(CreateError::Refused),
        Some(_) => OpenOptions::new()
            .read(true)
            .write(true)
            .open(rt, temporary)?,
        None => create_temporary(rt, temporary)?,
    };
    if opened.as_raw_fd() > 2 {
        return Ok(opened);
    }
    Ok(opened.try_clone()?)
}

/// Makes the file of this name, which nothing had. Where something has it now, another desk has begun to make it meanwhile.
fn create_temporary(rt: &HostRuntime, temporary: &str) -> Result<File, CreateError> {
    let created = OpenOptions::new()
        .read(true)
        .write(true)
        .create_new(true)
        .mode(0o644)
        .open(rt, temporary);
    match created {
        Ok(created) => Ok(created),
        Err(error) if error.kind() == ErrorKind::AlreadyExists => Err(CreateError::Busy),
        Err(error) => Err(CreateError::from(error)),
    }
}

/// Whether the open file is the one of this name and of no other, and has a page at most.
fn is_ours(rt: &HostRuntime, temporary: &str, new: &File) -> Result<bool, CreateError> {
    let found = new.metadata()?;
    let is_small = found.is_file() && found.nlink() == 1 && found.len() <= PAGE_SIZE as u64;
    Ok(is_small && found_at(rt, temporary)?.is_some_and(|named| are_one(&found, &named)))
}

/// Locks the file as a store locks its own, until it is closed.
fn lock(new: &File) -> Result<(), CreateError> {
    // SQLite's pending, reserved and shared locks.
    if os::try_lock_range(new.as_raw_fd(), RangeLock::Exclusive, 1 << 30, 512) == 0 {
        return Ok(());
    }
    let error = io::Error::from_raw_os_error(os::errno());
    if error.kind() == ErrorKind::WouldBlock {
        return Err(CreateError::Busy);
    }
    Err(CreateError::Refused)
}

/// Whether a file of a page at most holds what a stop within its making leaves.
fn holds_front(new: &File) -> Result<bool, CreateError> {
    let mut found = [0; PAGE_SIZE];
    let count = new.metadata()?.len() as usize;
    if count > PAGE_SIZE {
        return Ok(false);
    }
    new.read_exact_at(&mut found[..count], 0)?;
    Ok(is_begun(&found[..count]))
}

/// Writes the page to the file, and gives this its second name.
fn fill_and_name(
    rt: &HostRuntime,
    file: &str,
    temporary: &str,
    new: &File,
) -> Result<(), CreateError> {
    write_page(new, &first_page())?;
    Ok(fs::hard_link(rt, temporary, file)?)
}

/// Writes the page, and syncs it.
fn write_page(new: &File, page: &[u8]) -> io::Result<()>
    requires { page.now ≡ new_page }
{
    new.write_all_at(page, 0)?;
    new.sync_all()
}
