//! The reading of the arguments.
ghost use Rattle.std.specs.Prelude.{◌≡◌, IfErr, IfOk, Some, Ok, [], map};
ghost use Rattle.clap.specs.Words.{fault_of, kind_of, subcommand_of};
ghost use Rattle.desk_cli.specs.CommandLine.{the_program};
ghost use Rattle.desk_cli.specs.Arguments.{refusal_text};
ghost use Rattle.desk_cli.specs.Meaning.{IsFaultOf, IsRefusedBy, NamesBroken, meant_in, fault_as};
ghost use Rattle.desk_cli.specs.Meaning.{words_meant};

use crate::argument::Argument;
use crate::command_line::command_line;
use crate::matched::words_in;
use crate::meaning::{Words, WordsFault};
use clap::Error;
use clap::error::ErrorKind;
use std::alloc::Global;
use std::fmt;

/// The message where clap takes the arguments and the value of one breaks its rule.
#[derive(Clone, Copy)]
struct BrokenValue(Argument);

impl fmt::Display for BrokenValue {
    ghost output = { λ broken. Some (refusal_text broken.0) };

    fn fmt<W: fmt::Write>(&self, f: &mut fmt::Formatter<W>) -> fmt::Result {
        let rule = self.0;
        write!(f, "error: {rule}\n\nFor more information, try '--help'.\n")
    }
}

/// clap's refusal of the arguments, with its text.
pub fn refusal_of(alloc: Global, error: Error) -> WordsFault
    ensures { IsFaultOf (kind_of error) result }
{
    let kind = error.kind();
    match error.to_string(alloc) {
        Ok(text) => fault_as(kind, text),
        Err(_) => WordsFault::Memory,
    }
}

/// The fault for an error of this kind, with its text.
fn fault_as(kind: ErrorKind, text: String) -> WordsFault
    ensures { result ≡ fault_as kind (WordsFault.Usage text) (WordsFault.Help text) }
{
    match kind {
        ErrorKind::OutOfMemory => WordsFault::Memory,
        ErrorKind::DisplayHelp | ErrorKind::DisplayVersion => WordsFault::Help(text),
        _ => WordsFault::Usage(text),
    }
}

/// Reads the arguments of a command line, the program's name first.
///
/// `Usage` comes where they aren't understood or a value breaks its rule, of which the text names the first, `Help` where
/// they ask for help or for the version, and `Memory` for want of memory.
pub fn read_words<'a>(alloc: Global, words: &'a [&'a str]) -> Result<Words<'a>, WordsFault>
    ensures meant { IfOk result (λ w. meant_in (subcommand_of the_program
        (map (λ s. s.now) words.entry.now)) ≡ Ok (words_meant w)) }
    ensures taken { IfOk result (λ _. fault_of the_program (map (λ s. s.now) words.entry.now) ≡ []) }
    ensures refused { IfErr result (λ fault. IsRefusedBy (map (λ s. s.now) words.entry.now) fault) }
{
    let Ok(command) = command_line(alloc) else {
        return Err(WordsFault::Memory);
    };
    match command.try_get_matches_from(words) {
        Ok(matches) => match words_in(&matches) {
            Ok(found) => Ok(found),
            Err(argument) => Err(broken(alloc, argument)),
        },
        Err(error) => Err(refusal_of(alloc, error)),
    }
}

/// The refusal of arguments that clap takes and of which a value breaks its rule.
pub(crate) fn broken(alloc: Global, argument: Argument) -> WordsFault
    ensures { NamesBroken argument result }
{
    match BrokenValue(argument).to_string(alloc) {
        Ok(text) => WordsFault::Usage(text),
        Err(_) => WordsFault::Memory,
    }
}
