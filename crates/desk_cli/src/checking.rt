//! The arguments of the program that checks an order file before it is sent.
ghost use Rattle.std.specs.Prelude.{◌≡◌, IfErr, IfOk, [], codes, false, map, option_map};
ghost use Rattle.clap.specs.Words.{app_of, fault_of, first_of, matches_of, rule_of};
ghost use Rattle.desk_cli.specs.Checking.{check_app, checked_rule, order_check_app};
ghost use Rattle.desk_cli.specs.Meaning.{IsRefusalOf};

use crate::command_line::VERSION;
use crate::meaning::WordsFault;
use crate::read::refusal_of;
use crate::values::value_of;
use clap::{Arg, Command};
use std::alloc::{AllocError, Global};

/// The name of the file, which may be left out.
pub(crate) fn checked_argument<'a>(alloc: Global) -> Arg<'a>
    ensures rule { rule_of result ≡ checked_rule }
    ensures local { result.global ≡ false }
{
    Arg::new(alloc, "file").value_name("FILE").help(
        "The file that is checked; standard input where none is named",
    )
}

/// The command line of a program of this name, with what it is for, how it is used and what its exit status means.
pub(crate) fn check_command<'a>(
    alloc: Global,
    name: &'a str,
    about: &'a str,
    notes: &'a str,
) -> Result<Command<'a>, AllocError>
    ensures { IfOk result (λ c. app_of c ≡ check_app name.entry.now) }
{
    Command::new(alloc, name)
        .about(about)
        .version(VERSION)
        .after_help(notes)
        .arg(checked_argument(alloc))
}

/// The command line of the program.
fn order_check_line<'a>(alloc: Global) -> Result<Command<'a>, AllocError>
    ensures { IfOk result (λ c. app_of c ≡ order_check_app) }
{
    check_command(
        alloc,
        "order_check",
        "Tell how many orders an order file holds, or its first fault, before it is sent",
        "Example: order_check orders.csv\n\
Exit status: 0 for an order file; 1 for another; 2 where these words aren't understood; 3 where a read or a write failed;\n\
4 where memory was refused.",
    )
}

/// Reads the arguments of a command line, the program's name first: which order file is checked, `None` for standard input.
///
/// `Usage` comes where they aren't understood, `Help` where they ask for help or for the version, and `Memory` for want of memory.
pub fn read_order_check<'a>(
    alloc: Global,
    words: &'a [&'a str],
) -> Result<Option<&'a str>, WordsFault>
    ensures named { IfOk result (λ file. option_map (λ s. s.now) file
        ≡ first_of (codes "file") (matches_of order_check_app (map (λ s. s.now) words.entry.now))) }
    ensures taken { IfOk result (λ _. fault_of order_check_app (map (λ s. s.now) words.entry.now) ≡ []) }
    ensures refused { IfErr result
        (λ fault. IsRefusalOf (fault_of order_check_app (map (λ s. s.now) words.entry.now)) fault) }
{
    let Ok(command) = order_check_line(alloc) else {
        return Err(WordsFault::Memory);
    };
    match command.try_get_matches_from(words) {
        Ok(matches) => Ok(value_of(&matches, "file")),
        Err(error) => Err(refusal_of(alloc, error)),
    }
}
