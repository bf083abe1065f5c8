//! The words of the program that checks lines before they are sent.
ghost use Rattle.std.specs.Prelude.{◌≡◌, IfErr, IfOk, [], codes, false, map, option_map};
ghost use Rattle.clap.specs.Words.{app_of, fault_of, first_of, matches_of, rule_of};
ghost use Rattle.desk_cli.specs.Checking.{line_check_app, schema_rule};
ghost use Rattle.desk_cli.specs.Meaning.{IsRefusalOf, is_set};

use crate::checking::check_command;
use crate::matched::is_set;
use crate::meaning::WordsFault;
use crate::read::refusal_of;
use crate::values::value_of;
use clap::{Arg, ArgAction, Command};
use std::alloc::{AllocError, Global};

/// What `line_check` has to do.
#[derive(Clone, Copy, Debug, PartialEq, Eq)]
pub struct LineCheck<'a> {
    /// The name of the file that is checked, `None` for standard input.
    pub file: Option<&'a str>,
    /// Whether the JSON Schema of lines is printed, in which case nothing is checked.
    pub wants_schema: bool,
}

/// `--schema`, whether the JSON Schema of lines is printed.
fn schema_argument<'a>(alloc: Global) -> Arg<'a>
    ensures rule { rule_of result ≡ schema_rule }
    ensures local { result.global ≡ false }
{
    Arg::new(alloc, "schema")
        .long("schema")
        .action(ArgAction::SetTrue)
        .help("Print the JSON Schema of commands and questions, and check nothing")
}

/// The command line of the program.
fn line_check_line<'a>(alloc: Global) -> Result<Command<'a>, AllocError>
    ensures { IfOk result (λ c. app_of c ≡ line_check_app) }
{
    check_command(
        alloc,
        "line_check",
        "Tell which lines the desk would answer BadForm, and why, before they are sent",
        "Example: line_check shift.jsonl\n\
Exit status: 0 where no line is told; 1 where one is; 2 where these words aren't understood; 3 where a read or a write failed;\n\
4 where memory was refused.",
    )?
    .arg(schema_argument(alloc))
}

/// Reads the words of a command line, the program's name first: which file of lines is checked, or whether their schema is printed.
///
/// `Usage` comes where they aren't understood, `Help` where they ask for help or for the version, and `Memory` for want of memory.
pub fn read_line_check<'a>(alloc: Global, words: &'a [&'a str]) -> Result<LineCheck<'a>, WordsFault>
    ensures named { IfOk result (λ check. option_map (λ s. s.now) check.file
        ≡ first_of (codes "file") (matches_of line_check_app (map (λ s. s.now) words.entry.now))) }
    ensures schema { IfOk result (λ check. check.wants_schema
        ≡ is_set (first_of (codes "schema") (matches_of line_check_app (map (λ s. s.now) words.entry.now)))) }
    ensures taken { IfOk result (λ _. fault_of line_check_app (map (λ s. s.now) words.entry.now) ≡ []) }
    ensures refused { IfErr result
        (λ fault. IsRefusalOf (fault_of line_check_app (map (λ s. s.now) words.entry.now)) fault) }
{
    let Ok(command) = line_check_line(alloc) else {
        return Err(WordsFault::Memory);
    };
    match command.try_get_matches_from(words) {
        Ok(matches) => Ok(LineCheck {
            file: value_of(&matches, "file"),
            wants_schema: is_set(&matches, "schema"),
        }),
        Err(error) => Err(refusal_of(alloc, error)),
    }
}
