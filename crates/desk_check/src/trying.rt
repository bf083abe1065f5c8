//! A megabyte that is written next to a file: only a write shows whether the disk has room for it.
use file_reports::{OpenError, open_error_of_sibling};
use std::fs::{self, File};
use std::io::{self, Write};

/// What is written at once.
const A_PIECE: [u8; 4096] = [0; 4096];

/// How many pieces are written: a megabyte. A booking needs 15 to 23 kB, in the log and the file.
const PIECES: u32 = 256;

/// Writes the pieces to the disk.
fn write_pieces(file: &mut File) -> io::Result<()> {
    for _ in 0..PIECES {
        file.write_all(&A_PIECE)?;
    }
    file.sync_all()
}

/// Makes a file of this name, writes a megabyte to it, and removes it again; that it can't be written is reported first.
/// Where something of this name is there, that stays as it is.
fn take_room(rt: &HostRuntime, name: &str) -> io::Result<()> {
    let mut file = File::create_new(rt, name)?;
    let written = write_pieces(&mut file);
    let removed = fs::remove_file(rt, name);
    written?;
    removed
}

/// What keeps a megabyte from being written next to a file, where something does.
pub(crate) fn tried_sibling(rt: &HostRuntime, file: &str) -> Option<OpenError> {
    let number = libc::getpid();
    let Ok(name) = format!(in rt.alloc(); "{file}-{number}-room") else {
        return Some(OpenError::Memory);
    };
    match take_room(rt, name.as_str()) {
        Ok(()) => None,
        Err(error) => Some(open_error_of_sibling(error.kind())),
    }
}
