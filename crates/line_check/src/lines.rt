//! The verdicts on the lines of an input.
ghost use Rattle.std.specs.Prelude.{◌≡◌, ℕ, ◌+◌, ◌<◌, List, [], ◌∷◌, ◌++◌, length, Option, Some};
ghost use Rattle.std.specs.Prelude.{OnOk, IfErr, IfOk};
ghost use Rattle.std.specs.Str.Lines.{strip_carriage_return};
ghost use Rattle.std.specs.Io.KnownBytes.{Appends, Consumes, IsAtEnd};
ghost use Rattle.plant_base.specs.{Agrees};
ghost use Rattle.plant_text.specs.{held_with, held_after, with_lf};
ghost use Rattle.line_check.specs.Verdicts.{verdict_of};
ghost use Rattle.line_check.specs.Report.{answer_lines, line_text, tally_with, counts_text};
ghost use Rattle.line_check.specs.Report.{end_text, no_lines, report, some_bad, texts};
ghost use Rattle.line_check.specs.Report.{verdicts_after, AreWrittenAndCounted, EndsEarly};

use crate::hints::{MOST_HINTED, write_hint};
use crate::judge::{MemoryError, Verdict, judge};
use desk_cli::CheckFault;
use plant_text::{WriteError, write_line};
use plant_text_checks::Reason;
use std::alloc::Global;
use std::fmt;
use std::io::{Read, Write};

/// How many lines there were, and what they were.
#[derive(Clone, Copy, Debug, PartialEq, Eq)]
pub(crate) struct Tally {
    /// All lines, also empty ones.
    lines: u64,
    commands: u64,
    questions: u64,
    /// Whether some line was bad.
    bad: bool,
}

/// The bytes of a line that are held. A longer line than may be read is known by these.
const ROOM: usize = 262_146;

/// After so many reads a check ends.
const MOST_READS: u64 = 1_000_000_000;

/// What is reported of a bad line.
#[derive(Clone, Copy)]
struct NumberedVerdict {
    number: u64,
    reason: Reason,
}

impl fmt::Display for NumberedVerdict {
    ghost output = { λ reported. Some (answer_lines reported.number reported.reason) };

    fn fmt<W: fmt::Write>(&self, f: &mut fmt::Formatter<W>) -> fmt::Result {
        let number = self.number;
        let reason = self.reason;
        write!(f, "line {number}: {reason}")
    }
}

impl fmt::Display for Tally {
    ghost output = { λ tally. Some (counts_text tally) };

    fn fmt<W: fmt::Write>(&self, f: &mut fmt::Formatter<W>) -> fmt::Result {
        let commands = self.commands;
        let questions = self.questions;
        write!(f, "{commands} commands, {questions} questions")
    }
}

/// Writes a text and an LF.
fn write_verdict<W: Write>(writer: &mut W, text: &[u8]) -> Result<(), CheckFault>
    ensures text { OnOk result (Appends (W.contents writer.old) (W.contents writer.new)
        (with_lf text.now)) }
    ensures write_error { IfErr result (λ fault. fault ≡ CheckFault.Write) }
    ensures early { IfErr result (λ fault. EndsEarly fault (W.contents writer.old) (W.contents writer.new)
        (with_lf text.now)) }
{
    match write_line(writer, text) {
        Ok(()) => Ok(()),
        Err(WriteError) => Err(CheckFault::Write),
    }
}

/// Reports why the line of a number is bad.
fn write_verdict_line<W: Write>(
    alloc: Global,
    writer: &mut W,
    number: u64,
    reason: Reason,
) -> Result<(), CheckFault>
    ensures text { OnOk result (Appends (W.contents writer.old) (W.contents writer.new)
        (with_lf (answer_lines number reason))) }
    ensures early { IfErr result (λ fault. EndsEarly fault (W.contents writer.old) (W.contents writer.new)
        (with_lf (answer_lines number reason))) }
{
    let reported = NumberedVerdict { number, reason };
    match reported.to_string(alloc) {
        Ok(text) => write_verdict(writer, text.as_bytes()),
        Err(_) => Err(CheckFault::Memory),
    }
}

/// Writes the line of the counts, as `3 commands, 2 questions`.
fn write_counts<W: Write>(alloc: Global, writer: &mut W, tally: Tally) -> Result<(), CheckFault>
    ensures text { OnOk result (Appends (W.contents writer.old) (W.contents writer.new)
        (with_lf (counts_text tally))) }
    ensures early { IfErr result (λ fault. EndsEarly fault (W.contents writer.old) (W.contents writer.new)
        (with_lf (counts_text tally))) }
{
    match tally.to_string(alloc) {
        Ok(text) => write_verdict(writer, text.as_bytes()),
        Err(_) => Err(CheckFault::Memory),
    }
}

/// The number after this one. An input has fewer lines than would need another.
fn next(number: u64) -> Result<u64, CheckFault>
    ensures value { IfOk result (λ n. n ≡ number + 1) }
    ensures error { IfErr result (λ fault. fault ≡ CheckFault.Read) }
{
    match number.checked_add(1) {
        Some(n) => Ok(n),
        None => Err(CheckFault::Read),
    }
}

/// Counts a line more.
fn tally_with(tally: Tally, verdict: Verdict) -> Result<Tally, CheckFault>
    ensures tally { IfOk result (λ now. now ≡ tally_with tally verdict) }
    ensures error { IfErr result (λ fault. fault ≡ CheckFault.Read) }
{
    let mut now = tally;
    now.lines = next(tally.lines)?;
    match verdict {
        Verdict::Nothing => {}
        Verdict::Command => now.commands = next(tally.commands)?,
        Verdict::Question => now.questions = next(tally.questions)?,
        Verdict::Bad(_) => now.bad = true,
    }
    Ok(now)
}

/// Reports a line of this verdict where it is bad, and counts it.
fn take_verdict<W: Write>(
    alloc: Global,
    writer: &mut W,
    tally: Tally,
    verdict: Verdict,
) -> Result<Tally, CheckFault>
    ensures tally { IfOk result (λ now. now ≡ tally_with tally verdict) }
    ensures text { OnOk result (Appends (W.contents writer.old) (W.contents writer.new)
        (line_text (tally.lines + 1) verdict)) }
    ensures early { IfErr result (λ fault. EndsEarly fault (W.contents writer.old) (W.contents writer.new)
        (line_text (tally.lines + 1) verdict)) }
{
    let now = tally_with(tally, verdict)?;
    match &verdict {
        Verdict::Bad(reason) => write_verdict_line(alloc, writer, now.lines, *reason)?,
        Verdict::Nothing | Verdict::Command | Verdict::Question => {}
    }
    Ok(now)
}

/// Gives a hint on the line after so many, where it is a bad one among the first.
fn give_hint<H: Write>(alloc: Global, hints: &mut H, before: u64, line: &[u8], verdict: &Verdict) {
    if let Verdict::Bad(reason) = verdict {
        if before < MOST_HINTED {
            write_hint(alloc, hints, before.saturating_add(1), line, *reason);
        }
    }
}

/// Takes a line of this verdict, and gives a hint on it.
fn take_judged<W: Write, H: Write>(
    alloc: Global,
    writer: &mut W,
    hints: &mut H,
    tally: Tally,
    line: &[u8],
    verdict: Verdict,
) -> Result<Tally, CheckFault>
    ensures tally { IfOk result (λ now. now ≡ tally_with tally verdict) }
    ensures text { OnOk result (Appends (W.contents writer.old) (W.contents writer.new)
        (line_text (tally.lines + 1) verdict)) }
    ensures early { IfErr result (λ fault. EndsEarly fault (W.contents writer.old) (W.contents writer.new)
        (line_text (tally.lines + 1) verdict)) }
{
    let before = tally.lines;
    give_hint(alloc, hints, before, line, &verdict);
    take_verdict(alloc, writer, tally, verdict)
}

/// Takes one line.
fn take_line<W: Write, H: Write>(
    alloc: Global,
    writer: &mut W,
    hints: &mut H,
    tally: Tally,
    line: &[u8],
) -> Result<Tally, CheckFault>
    ensures reported { IfOk result (λ now. AreWrittenAndCounted tally (verdict_of line.now ∷ [])
        (W.contents writer.old) (W.contents writer.new) now) }
    ensures early { IfErr result (λ fault. EndsEarly fault (W.contents writer.old) (W.contents writer.new)
        (texts tally.lines (verdict_of line.now ∷ []))) }
{
    match judge(alloc, line) {
        Ok(verdict) => take_judged(alloc, writer, hints, tally, line, verdict),
        Err(MemoryError) => Err(CheckFault::Memory),
    }
}

/// The line less one CR at its end.
fn without_carriage_return(line: &[u8]) -> &[u8]
    ensures { result.now ≡ strip_carriage_return line.now }
{
    let n = line.len();
    if n > 0 && line[n - 1] == b'\r' {
        &line[..n - 1]
    } else {
        line
    }
}

/// Takes the line that is held, and forgets it.
fn end_line<W: Write, H: Write>(
    alloc: Global,
    writer: &mut W,
    hints: &mut H,
    held: &mut Vec<u8>,
    tally: Tally,
) -> Result<Tally, CheckFault>
    ensures held { OnOk result (held.new.items ≡ []) }
    ensures reported { IfOk result (λ now. AreWrittenAndCounted tally
        (verdict_of (strip_carriage_return held.old.items) ∷ [])
        (W.contents writer.old) (W.contents writer.new) now) }
    ensures early { IfErr result (λ fault. EndsEarly fault (W.contents writer.old) (W.contents writer.new)
        (texts tally.lines (verdict_of (strip_carriage_return held.old.items) ∷ []))) }
{
    let now = take_line(alloc, writer, hints, tally, without_carriage_return(held))?;
    held.clear();
    Ok(now)
}

/// Holds a byte more of the line, while there is room.
fn hold_byte(held: &mut Vec<u8>, b: u8) -> Result<(), CheckFault>
    ensures held { OnOk result (held.new.items ≡ held_with held.old.items b) }
    ensures error { IfErr result (λ fault. fault ≡ CheckFault.Memory) }
{
    if held.len() < ROOM && held.push(b).is_err() {
        return Err(CheckFault::Memory);
    }
    Ok(())
}

/// Takes one byte.
fn take_byte<W: Write, H: Write>(
    alloc: Global,
    writer: &mut W,
    hints: &mut H,
    held: &mut Vec<u8>,
    tally: Tally,
    b: u8,
) -> Result<Tally, CheckFault>
    ensures held { OnOk result (held.new.items ≡ held_after held.old.items (b ∷ [])) }
    ensures reported { IfOk result (λ now. AreWrittenAndCounted tally (verdicts_after held.old.items (b ∷ []))
        (W.contents writer.old) (W.contents writer.new) now) }
    ensures early { IfErr result (λ fault. EndsEarly fault (W.contents writer.old) (W.contents writer.new)
        (texts tally.lines (verdicts_after held.old.items (b ∷ [])))) }
{
    if b == b'\n' {
        return end_line(alloc, writer, hints, held, tally);
    }
    match hold_byte(held, b) {
        Ok(()) => Ok(tally),
        Err(fault) => Err(fault),
    }
}

/// Takes the bytes of one read: each line that ends in them is judged.
fn take_piece<W: Write, H: Write>(
    alloc: Global,
    writer: &mut W,
    hints: &mut H,
    held: &mut Vec<u8>,
    tally: Tally,
    piece: &[u8],
) -> Result<Tally, CheckFault>
    ensures held { OnOk result (held.new.items ≡ held_after held.old.items piece.now) }
    ensures reported { IfOk result (λ now. AreWrittenAndCounted tally (verdicts_after held.old.items piece.now)
        (W.contents writer.old) (W.contents writer.new) now) }
    ensures early { IfErr result (λ fault. EndsEarly fault (W.contents writer.old) (W.contents writer.new)
        (texts tally.lines (verdicts_after held.old.items piece.now))) }
{
    let mut tally = tally;
    for b in piece {
        match take_byte(alloc, writer, hints, held, tally, *b) {
            Ok(now) => tally = now,
            Err(fault) => return Err(fault),
        }
    }
    Ok(tally)
}

/// Writes the end: the counts, where no line was bad.
fn write_end<W: Write>(alloc: Global, writer: &mut W, tally: Tally) -> Result<bool, CheckFault>
    ensures valid { IfOk result (λ bad. bad ≡ tally.bad) }
    ensures text { OnOk result (Appends (W.contents writer.old) (W.contents writer.new)
        (end_text tally)) }
    ensures early { IfErr result (λ fault. EndsEarly fault (W.contents writer.old) (W.contents writer.new)
        (end_text tally)) }
{
    if tally.bad {
        return Ok(true);
    }
    write_counts(alloc, writer, tally)?;
    Ok(false)
}

/// Takes the last line, which no LF ended, and writes the end.
fn end_input<W: Write, H: Write>(
    alloc: Global,
    writer: &mut W,
    hints: &mut H,
    held: &[u8],
    tally: Tally,
) -> Result<bool, CheckFault>
    ensures reported { IfOk result (λ bad. (now : Tally) × (between : Option (List ℕ))
        × AreWrittenAndCounted tally (verdict_of held.now ∷ []) (W.contents writer.old) between now
        × Appends between (W.contents writer.new) (end_text now) × (bad ≡ now.bad)) }
    ensures early { IfErr result (λ fault. EndsEarly fault (W.contents writer.old) (W.contents writer.new)
        (texts tally.lines (verdict_of held.now ∷ []) ++ end_text (tally_with tally (verdict_of held.now)))) }
{
    match take_line(alloc, writer, hints, tally, held) {
        Ok(now) => write_end(alloc, writer, now),
        Err(fault) => Err(fault),
    }
}

/// Reads into `piece` and judges, up to the end of the input or so many reads.
fn check_pieces<R: Read, W: Write, H: Write>(
    alloc: Global,
    reader: &mut R,
    writer: &mut W,
    hints: &mut H,
    piece: &mut [u8],
    most: u64,
) -> Result<bool, CheckFault>
    requires { 0 < length piece.old }
    ensures reported { IfOk result (λ bad. (bytes : List ℕ)
        × Consumes (R.remaining reader.old) (R.remaining reader.new) bytes
        × IsAtEnd (R.remaining reader.new)
        × Appends (W.contents writer.old) (W.contents writer.new) (report bytes)
        × (bad ≡ some_bad bytes)) }
    ensures early { IfErr result (λ fault. (bytes : List ℕ) × Agrees (R.remaining reader.old) bytes
        × EndsEarly fault (W.contents writer.old) (W.contents writer.new) (report bytes)) }
{
    let mut held = Vec::new(alloc);
    let mut tally = Tally {
        lines: 0,
        commands: 0,
        questions: 0,
        bad: false,
    };
    'reads: for _made in 0..most {
        match reader.read(piece) {
            Ok(0) => return end_input(alloc, writer, hints, &held, tally),
            Ok(n) => {
                let (prefix, _) = piece.split_at(n);
                match take_piece(alloc, writer, hints, &mut held, tally, prefix) {
                    Ok(now) => tally = now,
                    Err(fault) => return Err(fault),
                }
            }
            Err(_) => return Err(CheckFault::Read),
        }
    }
    Err(CheckFault::Read)
}

/// Judges the lines of an input one after the other, and executes none: writes a line for each that is bad, with its
/// number and its problem, and where there was none, how many commands and questions there were. `true` where some
/// line is bad. What may be meant by a bad line goes to `hints`, of which nothing is promised.
///
/// A line ends with LF, and one CR before it is dropped; what follows the last LF counts as it is. An empty
/// line is passed over. Of a line at most 262,146 bytes are held.
///
/// `Read`: a read failed, or the input had not ended after 10^9 reads. `Write`: a write failed, or took no byte. `Memory`: memory was refused.
/// At each of them a front of the report on the input was written, at `Write` not all of it. `Open` never comes.
///
/// In the clauses, `bytes` are those that were read, up to the end; after a fault those that the reader had left, where it reports them, and some bytes
/// where it reports none.
pub(crate) fn check_lines<R: Read, W: Write, H: Write>(
    alloc: Global,
    reader: &mut R,
    writer: &mut W,
    hints: &mut H,
) -> Result<bool, CheckFault>
    ensures reported { IfOk result (λ bad. (bytes : List ℕ)
        × Consumes (R.remaining reader.old) (R.remaining reader.new) bytes
        × IsAtEnd (R.remaining reader.new)
        × Appends (W.contents writer.old) (W.contents writer.new) (report bytes)
        × (bad ≡ some_bad bytes)) }
    ensures early { IfErr result (λ fault. (bytes : List ℕ) × Agrees (R.remaining reader.old) bytes
        × EndsEarly fault (W.contents writer.old) (W.contents writer.new) (report bytes)) }
{
    let mut piece = [0; 4096];
    check_pieces(alloc, reader, writer, hints, &mut piece, MOST_READS)
}
