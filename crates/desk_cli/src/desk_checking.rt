//! The arguments of the program that checks a desk's file.
ghost use Rattle.std.specs.Prelude.{◌≡◌, IfErr, IfOk, Some, [], codes, false, map};
ghost use Rattle.clap.specs.Words.{app_of, fault_of, rule_of};
ghost use Rattle.desk_cli.specs.CommandLine.{file_rule};
ghost use Rattle.desk_cli.specs.DeskChecking.{IsUnchecked, desk_check_app, given, json_rule};
ghost use Rattle.desk_cli.specs.DeskChecking.{room_rule};
ghost use Rattle.desk_cli.specs.Meaning.{is_set};

use crate::argument::Argument;
use crate::command_line::VERSION;
use crate::matched::is_set;
use crate::meaning::WordsFault;
use crate::read::{broken, refusal_of};
use crate::values::value_of;
use clap::{Arg, ArgAction, Command};
use std::alloc::{AllocError, Global};

/// The arguments of `desk_check`.
#[derive(Clone, Copy, Debug, PartialEq, Eq)]
pub struct DeskCheck<'a> {
    /// The name of the file that is checked.
    pub file: &'a str,
    /// Whether one JSON object is written instead of sentences.
    pub is_json: bool,
    /// Whether a megabyte is written next to it, to see whether the disk has room.
    pub tries_room: bool,
}

/// The name of the file, which has to be there.
fn file_argument<'a>(alloc: Global) -> Arg<'a>
    ensures rule { rule_of result ≡ file_rule }
    ensures local { result.global ≡ false }
{
    Arg::new(alloc, "file")
        .required(true)
        .value_name("FILE")
        .help("The file of the desk's records, which isn't changed")
}

/// `--json`, whether one JSON object is written.
fn json_argument<'a>(alloc: Global) -> Arg<'a>
    ensures rule { rule_of result ≡ json_rule }
    ensures local { result.global ≡ false }
{
    Arg::new(alloc, "json")
        .long("json")
        .action(ArgAction::SetTrue)
        .help("Print one JSON object in place of sentences")
}

/// `--room`, whether a megabyte is written next to the file.
fn room_argument<'a>(alloc: Global) -> Arg<'a>
    ensures rule { rule_of result ≡ room_rule }
    ensures local { result.global ≡ false }
{
    Arg::new(alloc, "room")
        .long("room")
        .action(ArgAction::SetTrue)
        .help(
            "Also write a megabyte to a new file next to it, which is removed again, to see whether the disk is full",
        )
}

/// The command line of the program.
fn desk_check_line<'a>(alloc: Global) -> Result<Command<'a>, AllocError>
    ensures { IfOk result (λ c. app_of c ≡ desk_check_app) }
{
    Command::new(alloc, "desk_check")
        .about("Tell whether the file of a desk opens, what it holds, and which rows break a rule")
        .version(VERSION)
        .after_help(
            "Without --room it makes nothing and changes nothing: what stands in the file and its log is read into memory.\n\n\
Example: desk_check plant.db\n\
Exit status: 0 where the file holds a desk that breaks no rule; 1 where it opens and holds none; 2 where these words aren't\n\
understood; 3 where it doesn't open, breaks a rule or is of a later program, or a write failed; 4 where memory was refused.",
        )
        .arg(file_argument(alloc))?
        .arg(json_argument(alloc))?
        .arg(room_argument(alloc))
}

/// Reads the arguments of a command line, the program's name first: which desk's file is checked, how that is reported,
/// and whether room is tried.
///
/// `Usage` comes where they aren't understood, `Help` where they ask for help or for the version, and `Memory` for want of memory.
pub fn read_desk_check<'a>(alloc: Global, words: &'a [&'a str]) -> Result<DeskCheck<'a>, WordsFault>
    ensures file { IfOk result (λ check. given (map (λ s. s.now) words.entry.now) (codes "file") ≡ Some check.file.now) }
    ensures json { IfOk result (λ check. check.is_json ≡ is_set (given (map (λ s. s.now) words.entry.now) (codes "json"))) }
    ensures room { IfOk result (λ check. check.tries_room ≡ is_set (given (map (λ s. s.now) words.entry.now) (codes "room"))) }
    ensures taken { IfOk result (λ _. fault_of desk_check_app (map (λ s. s.now) words.entry.now) ≡ []) }
    ensures refused { IfErr result (λ fault. IsUnchecked (map (λ s. s.now) words.entry.now) fault) }
{
    let Ok(command) = desk_check_line(alloc) else {
        return Err(WordsFault::Memory);
    };
    match command.try_get_matches_from(words) {
        Ok(matches) => match value_of(&matches, "file") {
            Some(file) => Ok(DeskCheck {
                file,
                is_json: is_set(&matches, "json"),
                tries_room: is_set(&matches, "room"),
            }),
            None => Err(broken(alloc, Argument::File)),
        },
        Err(error) => Err(refusal_of(alloc, error)),
    }
}
