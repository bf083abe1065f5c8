//! Reads, one after another, and what was found in them.
ghost use Rattle.std.specs.Prelude.{◌≡◌, ℕ, ◌≤◌, ◌<◌, ◌+◌, List, [], length, IfOk, IsErrOf, OnErr};
ghost use Rattle.std.specs.Io.KnownBytes.{Consumes};
ghost use Rattle.plant_http_requests.specs.HeadEnd.{end_of_head, LiesWithin};
ghost use Rattle.plant_http_requests.specs.PieceReading.{Agrees, TakesPiece, GoesOn, FindsHead};
ghost use Rattle.plant_http_requests.specs.PieceReading.{FindsBody, Spent, SpentAll};

use crate::head_end::head_length;
use std::io::Read;
use thiserror::Error;

/// Why a request could not be read.
#[derive(Clone, Copy, Debug, PartialEq, Eq, Error)]
pub enum InputFault {
    /// A read failed, or was interrupted.
    #[error("the reader failed")]
    Read,
    /// All reads that the request may take were made.
    #[error("too many reads")]
    Endless,
    /// Memory was refused.
    #[error("out of memory")]
    Memory,
}

/// Where the head of a request ends.
#[derive(Clone, Copy, Debug, PartialEq, Eq)]
pub enum HeadEnd {
    /// After so many bytes, at most [`LONGEST_HEAD`].
    Found(usize),
    /// Not in the first [`LONGEST_HEAD`] bytes.
    TooLong,
    /// The input ended before.
    Early,
    /// No byte came.
    Nothing,
}

/// The most bytes of a head.
pub const LONGEST_HEAD: usize = 8192;

/// The most bytes that one read asks for.
const PIECE: usize = 4096;

/// Reads a piece of at most `most` bytes to the end of `bytes`, and counts the read. 0 where the input has ended.
fn take_piece<R: Read>(
    reader: &mut R,
    bytes: &mut Vec<u8>,
    reads: &mut u32,
    most: usize,
) -> Result<usize, InputFault>
    requires { 0 < most }
    ensures taken { IfOk result (λ n. TakesPiece (R.remaining reader.old) (R.remaining reader.new)
        bytes.old.items bytes.new.items n × (n ≤ most)) }
    ensures counted { IfOk result (λ _. reads.old ≡ reads.new + 1) }
    ensures endless { IsErrOf result InputFault.Endless → (reads.old ≡ 0) × (reads.new ≡ 0)
        × (reader.new ≡ reader.old) × (bytes.new ≡ bytes.old) }
{
    if *reads == 0 {
        return Err(InputFault::Endless);
    }
    *reads -= 1;
    let mut piece = [0u8; PIECE];
    let room = most.min(PIECE);
    let Ok(n) = reader.read(&mut piece[..room]) else {
        return Err(InputFault::Read);
    };
    if bytes.extend_from_slice(&piece[..n]).is_err() {
        return Err(InputFault::Memory);
    }
    Ok(n)
}

/// Reads up to the end of the head, and no piece more. `bytes` has what was read, perhaps with bytes after the
/// head, and is at most [`LONGEST_HEAD`] bytes long. `reads` are the reads that may be made; each is counted off.
///
/// The result depends on the bytes of the input and not on the pieces in which they come. `Read`: a read failed, or
/// was interrupted. `Endless`: all reads were made, each of which gave a byte at least. `Memory`: memory was refused
/// for the bytes.
pub fn read_head<R: Read>(
    reader: &mut R,
    bytes: &mut Vec<u8>,
    reads: &mut u32,
) -> Result<HeadEnd, InputFault>
    requires { bytes.old.items ≡ [] }
    ensures known { IfOk result (λ _. Consumes (R.remaining reader.old) (R.remaining reader.new)
        bytes.new.items) }
    ensures found { IfOk result (λ end. FindsHead end bytes.new.items (R.remaining reader.new)) }
    ensures end { IfOk result (λ end. (whole : List ℕ) × Agrees (R.remaining reader.old) whole
        × (end ≡ end_of_head whole)) }
    ensures within { IfOk result (λ end. LiesWithin end bytes.new.items) }
    ensures spent { IfOk result (λ end. Spent end reads.old reads.new (length bytes.new.items)) }
    ensures endless { IsErrOf result InputFault.Endless → SpentAll reads.old
        (R.remaining reader.old) (R.remaining reader.new) }
{
    while bytes.len() < LONGEST_HEAD {
        if let Some(n) = head_length(bytes) {
            return Ok(HeadEnd::Found(n));
        }
        let len = bytes.len();
        match take_piece(reader, bytes, reads, LONGEST_HEAD - len) {
            Ok(0) => return Ok(if len == 0 {
                HeadEnd::Nothing
            } else {
                HeadEnd::Early
            }),
            Ok(_) => {}
            Err(fault) => return Err(fault),
        }
    }
    match head_length(bytes) {
        Some(n) => Ok(HeadEnd::Found(n)),
        None => Ok(HeadEnd::TooLong),
    }
}

/// Reads on until `want` bytes are there, and says whether they came before the input ended. No byte after them is
/// read.
///
/// `Read`, `Endless` and `Memory` come as from [`read_head`].
pub fn read_to<R: Read>(
    reader: &mut R,
    bytes: &mut Vec<u8>,
    reads: &mut u32,
    want: usize,
) -> Result<bool, InputFault>
    ensures known { IfOk result (λ _. GoesOn (R.remaining reader.old) (R.remaining reader.new)
        bytes.old.items bytes.new.items) }
    ensures found { IfOk result (λ there. FindsBody there want bytes.new.items (R.remaining reader.new)) }
    ensures early { OnErr result (length bytes.old.items < want) }
    ensures endless { IsErrOf result InputFault.Endless → SpentAll reads.old
        (R.remaining reader.old) (R.remaining reader.new) }
{
    while bytes.len() < want {
        let len = bytes.len();
        match take_piece(reader, bytes, reads, want - len) {
            Ok(0) => return Ok(false),
            Ok(_) => {}
            Err(fault) => return Err(fault),
        }
    }
    Ok(true)
}
