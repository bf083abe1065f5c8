//! The run over the lines of an input.
ghost use Rattle.std.specs.Prelude.{◌≡◌, ℕ, ◌<◌, List, [], ◌∷◌, length, false, OnOk, IfErr};
ghost use Rattle.std.specs.Str.Lines.{strip_carriage_return};
ghost use Rattle.std.specs.Io.KnownBytes.{Consumes};
ghost use Rattle.plant_base.specs.{State};
ghost use Rattle.plant_keeper.specs.{IsSameDesk};
ghost use Rattle.plant_text.specs.Session.{Ends, EndsWithin, entry_of};
ghost use Rattle.plant_text.specs.CrashStates.{CrashStatesOfRun};
ghost use Rattle.plant_text.specs.Turns.{PieceEnds, LastEnds, FaultWritten, end_of};
ghost use Rattle.plant_text.specs.HeldLines.{held_with, held_after, entries_after};

use crate::turns::{TurnError, take_line, write_fault};
use plant_keeper::Keeper;
use plant_questions::DeskFault;
use std::alloc::Global;
use std::io::{Read, Write};

/// How a run ended.
#[derive(Clone, Copy, Debug, PartialEq, Eq)]
pub enum RunEnd {
    /// The input ended, and each line was answered. `refused` says whether some reply was a refusal, as that of a line
    /// that isn't well formed and of a question about an unknown id is.
    Done { refused: bool },
    /// A read failed. The lines whose LF was read are answered, and what comes after the last LF is not.
    Read,
    /// A write failed, or took no byte. Of the line that comes next a prefix was written, and not all of it.
    Write,
    /// The run has made its 10^9 reads, each of which gave a byte at least. The lines whose LF was read are answered, and what
    /// comes after the last LF is not.
    Endless,
    /// The keeper had this fault, or memory was refused outside it. Its line was written as the last one.
    Fault(DeskFault),
}

/// The bytes of a line that are held. A longer line than may be read is recognized by these.
const ROOM: usize = 262_146;

/// After so many reads a run ends.
const MOST_READS: u64 = 1_000_000_000;

/// The line less one CR at its end.
fn strip_carriage_return(line: &[u8]) -> &[u8]
    ensures { result.now ≡ strip_carriage_return line.now }
{
    let n = line.len();
    if n > 0 && line[n - 1] == b'\r' {
        &line[..n - 1]
    } else {
        line
    }
}

fn end_of(stop: TurnError) -> RunEnd
    ensures { result ≡ end_of stop }
{
    match stop {
        TurnError::Write => RunEnd::Write,
        TurnError::Fault(fault) => RunEnd::Fault(fault),
    }
}

/// Answers the line that is held, and forgets it.
fn end_line<W: Write, K: Keeper>(
    alloc: Global,
    writer: &mut W,
    keeper: &mut K,
    held: &mut Vec<u8>,
    refused: bool,
) -> Result<bool, TurnError>
    requires { K.shut keeper.old ≡ false }
    ensures same { IsSameDesk K.honest K.schema K.foreign_tables keeper.old keeper.new }
    ensures open { OnOk result (K.shut keeper.new ≡ false) }
    ensures held { OnOk result (held.new.items ≡ []) }
    ensures ends { K.honest keeper.new → (s : State) → K.represents keeper.old s
        → PieceEnds (K.schema keeper.old) s
        (entry_of (strip_carriage_return held.old.items) ∷ [])
        (W.contents writer.old) (W.contents writer.new)
        (K.represents keeper.new) (K.shut keeper.new) (K.crash_states keeper.new) refused result }
{
    match take_line(alloc, writer, keeper, strip_carriage_return(held)) {
        Ok(line_refused) => {
            held.clear();
            Ok(refused || line_refused)
        }
        Err(stop) => Err(stop),
    }
}

/// Holds a byte more of the line, while there is room.
fn hold_byte<W: Write>(writer: &mut W, held: &mut Vec<u8>, b: u8) -> Result<(), TurnError>
    ensures held { OnOk result (held.new.items ≡ held_with held.old.items b) }
    ensures same { OnOk result (W.contents writer.new ≡ W.contents writer.old) }
    ensures stops { IfErr result (FaultWritten DeskFault.Memory (W.contents writer.old)
        (W.contents writer.new)) }
{
    if held.len() < ROOM && held.push(b).is_err() {
        return Err(write_fault(writer, DeskFault::Memory));
    }
    Ok(())
}

/// Takes one byte.
fn take_byte<W: Write, K: Keeper>(
    alloc: Global,
    writer: &mut W,
    keeper: &mut K,
    held: &mut Vec<u8>,
    refused: bool,
    b: u8,
) -> Result<bool, TurnError>
    requires { K.shut keeper.old ≡ false }
    ensures same { IsSameDesk K.honest K.schema K.foreign_tables keeper.old keeper.new }
    ensures open { OnOk result (K.shut keeper.new ≡ false) }
    ensures held { OnOk result (held.new.items ≡ held_after held.old.items (b ∷ [])) }
    ensures ends { K.honest keeper.new → (s : State) → K.represents keeper.old s
        → PieceEnds (K.schema keeper.old) s (entries_after held.old.items (b ∷ []))
        (W.contents writer.old) (W.contents writer.new)
        (K.represents keeper.new) (K.shut keeper.new) (K.crash_states keeper.new) refused result }
{
    if b == b'\n' {
        return end_line(alloc, writer, keeper, held, refused);
    }
    match hold_byte(writer, held, b) {
        Ok(()) => Ok(refused),
        Err(stop) => Err(stop),
    }
}

/// Takes the bytes of one read: each line that ends in them is answered.
fn take_piece<W: Write, K: Keeper>(
    alloc: Global,
    writer: &mut W,
    keeper: &mut K,
    held: &mut Vec<u8>,
    refused: bool,
    piece: &[u8],
) -> Result<bool, TurnError>
    requires { K.shut keeper.old ≡ false }
    ensures same { IsSameDesk K.honest K.schema K.foreign_tables keeper.old keeper.new }
    ensures open { OnOk result (K.shut keeper.new ≡ false) }
    ensures held { OnOk result (held.new.items ≡ held_after held.old.items piece.now) }
    ensures ends { K.honest keeper.new → (s : State) → K.represents keeper.old s
        → PieceEnds (K.schema keeper.old) s (entries_after held.old.items piece.now)
        (W.contents writer.old) (W.contents writer.new)
        (K.represents keeper.new) (K.shut keeper.new) (K.crash_states keeper.new) refused result }
{
    let mut refused = refused;
    for b in piece {
        match take_byte(alloc, writer, keeper, held, refused, *b) {
            Ok(now) => refused = now,
            Err(stop) => return Err(stop),
        }
    }
    Ok(refused)
}

/// Answers the last line, which no LF ended.
fn end_input<W: Write, K: Keeper>(
    alloc: Global,
    writer: &mut W,
    keeper: &mut K,
    held: &[u8],
    refused: bool,
) -> RunEnd
    requires { K.shut keeper.old ≡ false }
    ensures same { IsSameDesk K.honest K.schema K.foreign_tables keeper.old keeper.new }
    ensures ends { K.honest keeper.new → (s : State) → K.represents keeper.old s
        → LastEnds (K.schema keeper.old) s (entry_of held.now)
        (W.contents writer.old) (W.contents writer.new)
        (K.represents keeper.new) (K.shut keeper.new) (K.crash_states keeper.new) refused result }
{
    match take_line(alloc, writer, keeper, held) {
        Ok(line_refused) => RunEnd::Done {
            refused: refused || line_refused,
        },
        Err(stop) => end_of(stop),
    }
}

/// Reads into `piece` and answers, up to the end of the input or so many reads.
fn run_pieces<R: Read, W: Write, K: Keeper>(
    alloc: Global,
    reader: &mut R,
    writer: &mut W,
    keeper: &mut K,
    piece: &mut [u8],
    most: u64,
) -> RunEnd
    requires open { K.shut keeper.old ≡ false }
    requires room { 0 < length piece.old }
    ensures same { IsSameDesk K.honest K.schema K.foreign_tables keeper.old keeper.new }
    ensures ends { (bytes : List ℕ) × Consumes (R.remaining reader.old) (R.remaining reader.new) bytes
        × (K.honest keeper.new → (s : State) → K.represents keeper.old s
        → EndsWithin most (K.schema keeper.old) s bytes (R.remaining reader.new)
        (W.contents writer.old) (W.contents writer.new)
        (K.represents keeper.new) (K.shut keeper.new) (K.crash_states keeper.new) result) }
{
    let mut held = Vec::new(alloc);
    let mut refused = false;
    'reads: for _made in 0..most {
        match reader.read(piece) {
            Ok(0) => return end_input(alloc, writer, keeper, &held, refused),
            Ok(n) => {
                let (prefix, _) = piece.split_at(n);
                match take_piece(alloc, writer, keeper, &mut held, refused, prefix) {
                    Ok(now) => refused = now,
                    Err(stop) => return end_of(stop),
                }
            }
            Err(_) => return RunEnd::Read,
        }
    }
    RunEnd::Endless
}

/// Takes the lines of the input one after the other, has the keeper execute and answer them, and writes a line to each.
///
/// A line ends with LF, and one CR before it is dropped; what comes after the last LF counts as it is. An empty
/// line has no reply. A command is answered as [`crate::reply_line`] says and a question as [`crate::answer_text`], each
/// in the state after the commands before it. A line of more than 262,144 bytes, LF and CR not counted, is passed over
/// and answered as BadForm, and so is one that [`crate::read_line`] doesn't read; neither reaches the keeper. The first
/// fault ends the run after its line ([`crate::fault_line`]); memory that is refused for a line or an answer is such a
/// fault.
///
/// A reply is written whole before the next line is executed, and no memory is taken between a command's reply from
/// the keeper and the end of its line. So at whatever end at most the last accepted command is unanswered, and all
/// that was accepted stays.
///
/// What is written depends on the bytes of the input and not on the pieces in which they come, but for `Endless`. A
/// read or a write that is interrupted counts as failed.
///
/// In the clause `ends`, `bytes` are those that were read and `s` is a state that the keeper represented;
/// nothing is said of what the keeper represents, and of what a stop leaves, if it doesn't end honest.
pub fn run_lines<R: Read, W: Write, K: Keeper>(
    alloc: Global,
    reader: &mut R,
    writer: &mut W,
    keeper: &mut K,
) -> RunEnd
    requires { K.shut keeper.old ≡ false }
    ensures same { IsSameDesk K.honest K.schema K.foreign_tables keeper.old keeper.new }

    // How the run ended, and what a stop leaves then.
    ensures ends { (bytes : List ℕ) × Consumes (R.remaining reader.old) (R.remaining reader.new) bytes
        × (K.honest keeper.new → (s : State) → K.represents keeper.old s
        → Ends (K.schema keeper.old) s bytes (R.remaining reader.new)
        (W.contents writer.old) (W.contents writer.new)
        (K.represents keeper.new) (K.shut keeper.new) (K.crash_states keeper.new) result
        × CrashStatesOfRun s bytes (R.remaining reader.new) (K.represents keeper.new) (K.crash_states keeper.new) result) }
{
    run_lines_within(alloc, reader, writer, keeper, MOST_READS)
}

/// Does as [`run_lines`] does, in so many reads at most.
pub fn run_lines_within<R: Read, W: Write, K: Keeper>(
    alloc: Global,
    reader: &mut R,
    writer: &mut W,
    keeper: &mut K,
    most: u64,
) -> RunEnd
    requires { K.shut keeper.old ≡ false }
    ensures same { IsSameDesk K.honest K.schema K.foreign_tables keeper.old keeper.new }
    ensures ends { (bytes : List ℕ) × Consumes (R.remaining reader.old) (R.remaining reader.new) bytes
        × (K.honest keeper.new → (s : State) → K.represents keeper.old s
        → EndsWithin most (K.schema keeper.old) s bytes (R.remaining reader.new)
        (W.contents writer.old) (W.contents writer.new)
        (K.represents keeper.new) (K.shut keeper.new) (K.crash_states keeper.new) result
        × CrashStatesOfRun s bytes (R.remaining reader.new) (K.represents keeper.new) (K.crash_states keeper.new) result) }
{
    let mut piece = [0; 4096];
    run_pieces(alloc, reader, writer, keeper, &mut piece, most)
}
