//! The bytes of a file and of its log, read into memory. Nothing is written to either.
use crate::room::{Rights, growth_limit, hindrance, lets_make, takes_page};
use crate::trying::tried_sibling;
use file_reports::OpenError;
use os::RangeLock;
use std::fs::{self, File, Metadata, OpenOptions};
use std::io::{self, ErrorKind, Read};
use std::os::fd::AsRawFd;
use std::os::unix::fs::MetadataExt;

/// The bytes of a file and of its log, and what keeps the desk from the file all the same, where something does.
#[derive(Drop)]
pub(crate) struct Copied {
    pub(crate) log: Vec<u8>,
    pub(crate) db: Vec<u8>,
    pub(crate) hindered: Option<OpenError>,
}

/// The folder of a file, by the name.
fn folder_of(file: &str) -> &str {
    match file.rsplit_once('/') {
        None => ".",
        Some((folder, _)) => { if folder.is_empty() { "/" } else { folder } }
    }
}

/// Why a file isn't found.
fn unfound(rt: &HostRuntime, file: &str) -> OpenError {
    if fs::symlink_metadata(rt, file).is_ok() {
        return OpenError::NoFile;
    }
    match fs::metadata(rt, folder_of(file)) {
        Ok(found) if found.is_dir() => OpenError::Missing,
        _ => OpenError::NoFolder,
    }
}

/// Whether there is such a file, which is a regular one with no second name, by what the system says of it.
fn is_there(found: io::Result<Metadata>) -> Result<bool, OpenError> {
    match found {
        Ok(found) if !found.is_file() => Err(OpenError::NoFile),
        Ok(found) if found.nlink() != 1 => Err(OpenError::Linked),
        Ok(_) => Ok(true),
        Err(error) if error.kind() == ErrorKind::NotFound => Ok(false),
        Err(error) => Err(error.into()),
    }
}

/// Opens a file that is there, for writing as well where this user may write it; and whether that is so. Nothing is written.
fn open_there(rt: &HostRuntime, file: &str) -> Result<(File, bool), OpenError> {
    match OpenOptions::new().read(true).write(true).open(rt, file) {
        Ok(opened) => Ok((apart(opened)?, true)),
        Err(_) => Ok((apart(fs::open(rt, file)?)?, false)),
    }
}

/// An open file that hasn't the number of a standard stream: what is written to a stream that was closed must not land in it.
fn apart(file: File) -> Result<File, OpenError> {
    if file.as_raw_fd() > 2 {
        return Ok(file);
    }
    Ok(file.try_clone()?)
}

/// Locks an open file as the desk does, until it is closed; where it may only be read, so that others may still read it.
fn lock(file: &File, writable: bool) -> Result<(), OpenError> {
    let kind = if writable {
        RangeLock::Exclusive
    } else {
        RangeLock::Shared
    };
    // SQLite's pending, reserved and shared locks.
    if os::try_lock_range(file.as_raw_fd(), kind, 1 << 30, 512) == 0 {
        return Ok(());
    }
    let error = io::Error::from_raw_os_error(os::errno());
    if error.kind() == ErrorKind::WouldBlock {
        return Err(OpenError::Locked);
    }
    Err(error.into())
}

/// All bytes of an open file.
fn bytes_of(rt: &HostRuntime, file: &mut File) -> Result<Vec<u8>, OpenError> {
    let mut bytes = Vec::new(rt.alloc());
    file.read_to_end(&mut bytes)?;
    Ok(bytes)
}

/// Whether there is a first byte, and that isn't 0.
fn begins_with_something(bytes: &[u8]) -> bool {
    match bytes {
        [first, ..] => *first != 0,
        [] => false,
    }
}

/// The name of a file next to a file.
fn sibling(rt: &HostRuntime, file: &str, end: &str) -> Result<String, OpenError> {
    format!(in rt.alloc(); "{file}{end}").map_err(|_| OpenError::Memory)
}

/// Whether SQLite left a journal of this name, which has something to play back.
fn has_journal(rt: &HostRuntime, file: &str) -> Result<bool, OpenError> {
    match fs::symlink_metadata(rt, file) {
        Ok(found) if found.is_file() => {}
        Ok(_) => return Ok(true),
        Err(error) if error.kind() == ErrorKind::NotFound => return Ok(false),
        Err(error) => return Err(error.into()),
    }
    let bytes = fs::read(rt, file)?;
    Ok(begins_with_something(bytes.as_slice()))
}

/// A log: its bytes, whether it is there, and whether it may be written, as one may that isn't there.
#[derive(Drop)]
struct Log {
    bytes: Vec<u8>,
    is_there: bool,
    writable: bool,
}

/// The log of this name.
fn log_of(rt: &HostRuntime, file: &str) -> Result<Log, OpenError> {
    // No link is followed to a log.
    if !is_there(fs::symlink_metadata(rt, file))? {
        return Ok(Log {
            bytes: Vec::new(rt.alloc()),
            is_there: false,
            writable: true,
        });
    }
    let (mut opened, writable) = open_there(rt, file)?;
    let bytes = bytes_of(rt, &mut opened)?;
    Ok(Log {
        bytes,
        is_there: true,
        writable,
    })
}

/// Whether this user may make a file in a folder, as far as its mode says.
fn may_make(rt: &HostRuntime, folder: &str) -> bool {
    match fs::metadata(rt, folder) {
        Ok(found) => {
            let rights = Rights {
                owner: found.uid(),
                mode: found.mode(),
            };
            lets_make(rights, libc::geteuid())
        }
        Err(_) => true,
    }
}

/// What keeps the desk from a file of so many bytes, which may be written or not, with this log, all the same, where something does.
fn hindered(
    rt: &HostRuntime,
    real: &str,
    bytes: usize,
    writable: bool,
    log: &Log,
) -> Option<OpenError> {
    let limit = growth_limit();
    let grows = takes_page(limit, bytes) && takes_page(limit, log.bytes.len());
    let logs = log.is_there || may_make(rt, folder_of(real));
    hindrance(writable && log.writable, grows, logs)
}

/// What keeps the desk from a file where nothing was found to: whether a megabyte can be written next to it, where that is tried.
fn tried(
    rt: &HostRuntime,
    real: &str,
    hindered: Option<OpenError>,
    tries_room: bool,
) -> Option<OpenError> {
    match hindered {
        None if tries_room => tried_sibling(rt, real),
        found => found,
    }
}

/// Reads a file and its log into memory, while no other program has them open, and asks whether they may be written and grow; and
/// tries whether the disk has room next to them, where that is asked for.
///
/// `Missing`, `NoFolder`, `NoFile`, `Linked`, `Unreadable`, `Locked`, `Journal`: as these say; `Unread` where a read failed;
/// `Memory` where there is none.
pub(crate) fn copy_file(
    rt: &HostRuntime,
    file: &str,
    tries_room: bool,
) -> Result<Copied, OpenError> {
    if !is_there(fs::metadata(rt, file))? {
        return Err(unfound(rt, file));
    }
    let real = fs::canonicalize(rt, file)?;
    let (mut db, writable) = open_there(rt, real.as_str())?;
    lock(&db, writable)?;
    let journal = sibling(rt, real.as_str(), "-journal")?;
    if has_journal(rt, journal.as_str())? {
        return Err(OpenError::Journal);
    }
    let log = sibling(rt, real.as_str(), "-wal")?;
    let log = log_of(rt, log.as_str())?;
    let bytes = bytes_of(rt, &mut db)?;
    let hindered = hindered(rt, real.as_str(), bytes.len(), writable, &log);
    Ok(Copied {
        hindered: tried(rt, real.as_str(), hindered, tries_room),
        log: log.bytes,
        db: bytes,
    })
}
