//! The check of a file.
use crate::copying::copy_file;
use crate::opening::report_on_bytes;
use file_reports::{CheckOutcome, outcome_of};

/// Checks a file, and whether the disk has room, where that is to be tried by a page that is written next to it. Nothing
/// else is made or written.
pub(crate) fn check_file(rt: &HostRuntime, file: &str, tries_room: bool) -> CheckOutcome {
    match copy_file(rt, file, tries_room) {
        Err(open_error) => outcome_of(Err(open_error), None),
        Ok(copied) => outcome_of(
            report_on_bytes(rt.alloc(), copied.log.as_slice(), copied.db.as_slice()),
            copied.hindered,
        ),
    }
}
