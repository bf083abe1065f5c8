//! What all lines of an input report.
ghost use Rattle.std.specs.Prelude.{◌≡◌, IfOk};
ghost use Rattle.genealogy_picture.specs.Reading.{start, numbered, line_ended, taken, read_from};
ghost use Rattle.genealogy_picture.specs.Reading.{reported_of, ReportsAs};

use crate::answers::{AnswerLineFault, LineError, line_into};
use crate::ending::{DrawError, InputError};
use crate::gathered::Gathered;
use genealogy_svg::Reported;
use std::alloc::Global;
use std::marker::Model;

/// An input that was read so far.
#[derive(Debug, Drop)]
struct InputReading {
    gathered: Gathered,
    /// The number of the line that is coming, counted from 1.
    number: u64,
    /// Its bytes so far.
    held: Vec<u8>,
}

impl Model for InputReading {
    ghost use Rattle.genealogy_picture.specs.ReadingState.{ReadingState};

    ghost Value = { ReadingState };

    ghost view = { λ r. record { reported = r.gathered; number = r.number; held = r.held.items } };
}

/// How a line of a number is reported, where it isn't taken.
fn numbered(number: u64, taken: Result<(), AnswerLineFault>) -> Result<(), DrawError>
    ensures { result ≡ numbered number taken }
{
    match taken {
        Ok(()) => Ok(()),
        Err(AnswerLineFault::Reported(line_error)) => Err(DrawError::Refused(InputError::Line(
            number, line_error,
        ))),
        Err(AnswerLineFault::Memory) => Err(DrawError::Memory),
    }
}

impl InputReading {
    /// An input of which nothing was read.
    fn new(alloc: Global) -> Self
        ensures { result ≡ start }
    {
        InputReading {
            gathered: Gathered::new(alloc),
            number: 1,
            held: Vec::new(alloc),
        }
    }

    /// Takes the line that is held.
    fn end_line(&mut self, alloc: Global) -> Result<(), DrawError>
        ensures { ReportsAs (λ _. self.new) result (line_ended self.old) }
    {
        numbered(
            self.number,
            line_into(alloc, &mut self.gathered, &self.held),
        )?;
        self.held.clear();
        match self.number.checked_add(1) {
            Some(number) => {
                self.number = number;
                Ok(())
            }
            None => Err(DrawError::Memory),
        }
    }

    /// Takes a byte.
    fn take(&mut self, alloc: Global, b: u8) -> Result<(), DrawError>
        ensures { ReportsAs (λ _. self.new) result (taken self.old b) }
    {
        if b == b'\n' {
            return self.end_line(alloc);
        }
        match self.held.push(b) {
            Ok(()) => Ok(()),
            Err(_) => Err(DrawError::Memory),
        }
    }
}

fn read_from(alloc: Global, bytes: &[u8]) -> Result<InputReading, DrawError>
    ensures { ReportsAs (λ reading. reading) result (read_from start bytes.now) }
{
    let mut reading = InputReading::new(alloc);
    for b in bytes {
        reading.take(alloc, *b)?;
    }
    Ok(reading)
}

/// What the lines report, each ended by an LF but the last, which may be empty.
///
/// `Refused` comes where a line is no answer with edges, with its number and why. `Memory` comes where memory was refused. No other stop comes.
#[tactic(auto, unfolding(crate::specs::Reading::reported_of))]
pub(crate) fn reported_of(alloc: Global, bytes: &[u8]) -> Result<Reported, DrawError>
    ensures { ReportsAs (λ reported. reported) result (reported_of bytes.now) }
{
    let mut reading = read_from(alloc, bytes)?;
    reading.end_line(alloc)?;
    Ok(reading.gathered.into_reported())
}
