//! How the program reports why it ends.
ghost use Rattle.std.specs.Prelude.{◌≡◌, ◌≢◌};
ghost use Rattle.sqlite.specs.declared.error.ErrorCode.TheVariants as code;
ghost use Rattle.desk_program.specs.TaskOutput.{WritesFault, WritesWordsFault};

use crate::fault::{ProgramFault, opening_fault};
use crate::lines::fault_line;
use desk_cli::WordsFault;
use plant_text::{write_line, write_text};
use sqlite::Error;
use std::io::Write;

/// The exit status where the arguments of the command line aren't understood.
const USAGE: u8 = 2;

/// Writes a fault's line to standard error. Gives its exit status, whether or not the line could be written.
pub(crate) fn write_fault<E: Write>(fault: ProgramFault, errors: &mut E) -> u8
    ensures { WritesFault fault (E.contents errors.old) (E.contents errors.new) result }
{
    let _ = write_line(errors, fault_line(fault).as_bytes());
    fault.status()
}

/// Prints why the arguments of the command line give nothing to do, and gives the exit status.
///
/// - `Help`: its text goes to standard output, and the status is 0; where it can't be written, `fault: write` and 3.
/// - `Usage`: its text goes to standard error, and the status is 2.
/// - `Memory`: `fault: memory` and 4.
pub fn write_words_fault<W: Write, E: Write>(
    fault: &WordsFault,
    writer: &mut W,
    errors: &mut E,
) -> u8
    ensures { WritesWordsFault fault.now (W.contents writer.old) (W.contents writer.new)
        (E.contents errors.old) (E.contents errors.new) result }
{
    match fault {
        WordsFault::Help(text) => match write_text(writer, text.as_bytes()) {
            Ok(()) => 0,
            Err(_) => write_fault(ProgramFault::Write, errors),
        },
        WordsFault::Usage(text) => {
            let _ = write_text(errors, text.as_bytes());
            USAGE
        }
        WordsFault::Memory => write_fault(ProgramFault::Memory, errors),
    }
}

/// Prints on standard error why FILE doesn't open, and gives the exit status: `fault: memory` and 4 for want of memory,
/// `fault: store` and 3 for every other error of the store.
pub fn write_opening<E: Write>(error: &Error, errors: &mut E) -> u8
    ensures memory { error.now ≡ Error.SqliteFailure code.OutOfMemory
        → WritesFault ProgramFault.Memory (E.contents errors.old) (E.contents errors.new) result }
    ensures store { error.now ≢ Error.SqliteFailure code.OutOfMemory
        → WritesFault ProgramFault.Store (E.contents errors.old) (E.contents errors.new) result }
{
    write_fault(opening_fault(error), errors)
}
