//! Why a file can't be read as a desk's, and what to do about it.
ghost use Rattle.std.specs.Prelude.{◌≡◌};
ghost use Rattle.file_reports.specs.OpenErrors as spec;

use sql_tables::StoreFault;
use sqlite::{Error, ErrorCode};
use std::io::{self, ErrorKind};

/// Why a file can't be read as a desk's, or wouldn't be opened by the desk.
#[derive(Clone, Copy, Debug, PartialEq, Eq)]
pub enum OpenError {
    /// It isn't there.
    Missing,
    /// Its folder isn't there.
    NoFolder,
    /// It is a folder, a device or a pipe, or a link that leads nowhere.
    NoFile,
    /// It, its log, or its folder may not be read by this user.
    Unreadable,
    /// It or its log may not be written by this user, or the file system may only be read.
    Unwritable,
    /// This user may make no file in its folder, where its log is to be made.
    NoLog,
    /// It or its log may not grow by a page, since the system limits how large a file of this user's may become.
    Limited,
    /// It or its log has a second name.
    Linked,
    /// SQLite left a journal next to it, which only SQLite can play back.
    Journal,
    /// Another program has it open.
    Locked,
    /// A read of it failed.
    Unread,
    /// The toolkit doesn't open it, and this is its error.
    Closed(Error),
    /// It opens, and the store failed as its tables were read: most likely memory was refused to it.
    Failed,
    /// Memory was refused.
    Memory,
}

impl OpenError {
    /// The name of the cause, as with `--json`.
    pub fn name(self) -> &'static str
        ensures { result.now ≡ spec.open_error_name self }
    {
        match self {
            OpenError::Missing => "missing",
            OpenError::NoFolder => "folder",
            OpenError::NoFile => "nofile",
            OpenError::Unreadable => "unreadable",
            OpenError::Unwritable => "unwritable",
            OpenError::NoLog => "nolog",
            OpenError::Limited => "limit",
            OpenError::Linked => "linked",
            OpenError::Journal => "journal",
            OpenError::Locked => "locked",
            OpenError::Unread => "read",
            OpenError::Closed(error) => closed_name(error),
            OpenError::Failed => "store",
            OpenError::Memory => "memory",
        }
    }

    /// What the cause is.
    pub fn cause(self) -> &'static str
        ensures { result.now ≡ spec.cause_text self }
    {
        match self {
            OpenError::Missing => "It isn't there, and nothing was made.",
            OpenError::NoFolder => "Its folder isn't there.",
            OpenError::NoFile => {
                "It is a folder, a device or a pipe, or a link that leads nowhere."
            }
            OpenError::Unreadable => "This user may not read it, its log or its folder.",
            OpenError::Unwritable => {
                "This user may not write it or its log, or its file system may only be read."
            }
            OpenError::NoLog => {
                "This user may make no file in its folder, where the desk makes its log."
            }
            OpenError::Limited => {
                "It or its log may not grow by a page: how large a file may become is limited."
            }
            OpenError::Linked => "It or its log has a second name.",
            OpenError::Journal => "SQLite left a journal beside it.",
            OpenError::Locked => {
                "Another program has it open: another word of the desk, or sqlite3, also one that only reads."
            }
            OpenError::Unread => "A read of it failed.",
            OpenError::Closed(error) => closed_cause(error),
            OpenError::Failed => "The store failed as its tables were read.",
            OpenError::Memory => "Memory was refused.",
        }
    }

    /// What to do about it.
    pub fn advice(self) -> &'static str
        ensures { result.now ≡ spec.advice_text self }
    {
        match self {
            OpenError::Missing => {
                "Look for a slip in the name; desk init makes a desk in a new file."
            }
            OpenError::NoFolder => "Make the folder, or mend the name.",
            OpenError::NoFile => "Name another file; ls -ld shows what it is.",
            OpenError::Unreadable | OpenError::Unwritable | OpenError::NoLog => {
                "Give the rights to the user that runs the desk; ls -ld of the file, its -wal and its folder, id and findmnt -T show them."
            }
            OpenError::Limited => "Raise the limit; ulimit -f shows it.",
            OpenError::Linked =>
                "Remove the second name, or copy the file; ls -l shows how many it has.",
            OpenError::Journal => "Open it with sqlite3 once, which plays the journal back.",
            OpenError::Locked => {
                "Wait until that program has ended, or end it; fuser -v or lsof with the file names it."
            }
            OpenError::Unread => "Mend the disk; dmesg tells what it had to say.",
            OpenError::Closed(error) => closed_advice(error),
            OpenError::Failed | OpenError::Memory => {
                "Start again with more memory; free -h and ulimit -v show how much there is."
            }
        }
    }

    /// The toolkit's own error, where the toolkit has one for it.
    pub fn error(self) -> Option<Error>
        ensures { result ≡ spec.error_of self }
    {
        match self {
            OpenError::Missing | OpenError::Limited | OpenError::Failed => None,
            OpenError::NoFolder
            | OpenError::NoFile
            | OpenError::Unreadable
            | OpenError::Unwritable
            | OpenError::NoLog
            | OpenError::Linked
            | OpenError::Journal => Some(Error::SqliteFailure(ErrorCode::CannotOpen)),
            OpenError::Locked => Some(Error::SqliteFailure(ErrorCode::DatabaseBusy)),
            OpenError::Unread => Some(Error::SqliteFailure(ErrorCode::SystemIoFailure)),
            OpenError::Closed(error) => Some(error),
            OpenError::Memory => Some(Error::SqliteFailure(ErrorCode::OutOfMemory)),
        }
    }
}

// The error of a read.
impl From<io::Error> for OpenError {
    fn from(error: io::Error) -> OpenError {
        open_error_at(error.kind())
    }
}

/// The name of the cause of an error of the toolkit.
fn closed_name(error: Error) -> &'static str
    ensures { result.now ≡ spec.closed_name error }
{
    match error {
        Error::SqliteFailure(ErrorCode::NotADatabase) => "nodatabase",
        Error::SqliteFailure(ErrorCode::DatabaseCorrupt) => "damaged",
        Error::SqliteFailure(ErrorCode::DiskFull) => "full",
        _ => "store",
    }
}

/// What the cause of an error of the toolkit is.
fn closed_cause(error: Error) -> &'static str
    ensures { result.now ≡ spec.closed_cause error }
{
    match error {
        Error::SqliteFailure(ErrorCode::NotADatabase) => {
            "It is no database of SQLite, or one that the desk can't read, with a virtual table."
        }
        Error::SqliteFailure(ErrorCode::DatabaseCorrupt) => {
            "It is damaged below its tables (cut off, or a page was overwritten), or of a kind that the desk can't read: texts in UTF-16, auto_vacuum."
        }
        Error::SqliteFailure(ErrorCode::DiskFull) => "The disk is full.",
        _ => "The store failed.",
    }
}

/// What to do about an error of the toolkit.
fn closed_advice(error: Error) -> &'static str
    ensures { result.now ≡ spec.closed_advice error }
{
    match error {
        Error::SqliteFailure(ErrorCode::NotADatabase) => {
            "Name another file; file, or sqlite3 with .schema, tells what it is."
        }
        Error::SqliteFailure(ErrorCode::DatabaseCorrupt) => {
            "Take the last backup; of a copy sqlite3 with PRAGMA integrity_check tells whether it is damaged, with PRAGMA encoding and PRAGMA auto_vacuum its kind."
        }
        Error::SqliteFailure(ErrorCode::DiskFull) => "Make room; df -h shows how much there is.",
        _ => "Mend the disk, or start again with more memory.",
    }
}

/// The obstacle that an error of the toolkit is.
pub fn open_error_of(error: Error) -> OpenError
    ensures { result ≡ spec.open_error_of error }
{
    match error {
        Error::SqliteFailure(ErrorCode::OutOfMemory) => OpenError::Memory,
        other => OpenError::Closed(other),
    }
}

/// The obstacle that a fault of a store in memory is.
pub fn open_error_in(fault: StoreFault) -> OpenError
    ensures { result ≡ spec.open_error_in fault }
{
    match fault {
        StoreFault::Store => OpenError::Failed,
        StoreFault::Memory => OpenError::Memory,
    }
}

/// The obstacle that an error of the system is, at a read.
fn open_error_at(kind: ErrorKind) -> OpenError
    ensures { result ≡ spec.open_error_at kind }
{
    match kind {
        ErrorKind::PermissionDenied => OpenError::Unreadable,
        ErrorKind::NotADirectory => OpenError::NoFolder,
        ErrorKind::OutOfMemory => OpenError::Memory,
        _ => OpenError::Unread,
    }
}

/// The obstacle that an error of the system is, as a file is made next to it and a page written to that.
pub fn open_error_of_sibling(kind: ErrorKind) -> OpenError
    ensures { result ≡ spec.open_error_of_sibling kind }
{
    match kind {
        ErrorKind::StorageFull | ErrorKind::QuotaExceeded => {
            OpenError::Closed(Error::SqliteFailure(ErrorCode::DiskFull))
        }
        ErrorKind::PermissionDenied => OpenError::NoLog,
        ErrorKind::ReadOnlyFilesystem => OpenError::Unwritable,
        ErrorKind::OutOfMemory => OpenError::Memory,
        _ => OpenError::Closed(Error::SqliteFailure(ErrorCode::SystemIoFailure)),
    }
}
