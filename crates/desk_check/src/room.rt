//! Whether a file may grow, and a log be made next to it.
ghost use Rattle.std.specs.Prelude.{◌≡◌};
ghost use Rattle.desk_check.specs.Rooms as spec;

use file_reports::OpenError;

/// Linux's number of the limit of how large a file may become.
const FILE_SIZE: i32 = 1;

/// The bytes of a page of the log with its head.
const PAGE: u64 = 4120;

/// How many bytes a file of this user's may have; the greatest number where there is no limit.
pub(crate) fn growth_limit() -> u64 {
    let mut limit = libc::types::rlimit {
        rlim_cur: 0,
        rlim_max: 0,
    };
    if libc::getrlimit(FILE_SIZE, &mut limit) < 0 {
        return u64::MAX;
    }
    limit.rlim_cur
}

/// Whether a file of so many bytes may grow by a page, where so many a file may have.
pub(crate) fn takes_page(limit: u64, bytes: usize) -> bool
    ensures { result ≡ spec.takes_page limit bytes }
{
    limit >= PAGE && bytes as u64 <= limit - PAGE
}

/// The rights of a folder's owner, of its group and of others, to make a file in it: to write to it and to search it.
const OWNER: u32 = 0o300;

const GROUP: u32 = 0o030;

const OTHERS: u32 = 0o003;

/// Whose a folder is, and what its mode allows.
#[derive(Clone, Copy, Debug, PartialEq, Eq)]
pub(crate) struct Rights {
    pub(crate) owner: u32,
    pub(crate) mode: u32,
}

/// Whether a mode allows all of these.
fn allows(mode: u32, rights: u32) -> bool
    ensures { result ≡ spec.allows mode rights }
{
    mode & rights == rights
}

/// Whether this user may make a file in a folder, as far as its mode says. Of which groups the user is isn't asked: of a
/// folder of somebody else's either the group's rights or those of others are the user's.
pub(crate) fn lets_make(folder: Rights, user: u32) -> bool
    ensures { result ≡ spec.lets_make folder user }
{
    if user == 0 {
        return true;
    }
    if folder.owner == user {
        allows(folder.mode, OWNER)
    } else {
        allows(folder.mode, GROUP) || allows(folder.mode, OTHERS)
    }
}

/// What keeps the desk from a file that this user may write or not, that may grow with its log or not, and whose log is there or may be
/// made or not.
pub(crate) fn hindrance(writable: bool, grows: bool, logs: bool) -> Option<OpenError>
    ensures { result ≡ spec.hindrance writable grows logs }
{
    if !writable {
        return Some(OpenError::Unwritable);
    }
    if !grows {
        return Some(OpenError::Limited);
    }
    if !logs {
        return Some(OpenError::NoLog);
    }
    None
}
