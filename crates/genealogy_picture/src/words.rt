//! The arguments of the command line.
ghost use Rattle.std.specs.Prelude.{◌≡◌, IfErr, IfOk, [], codes, false, map, option_map};
ghost use Rattle.clap.specs.Words.{app_of, fault_of, first_of, found_of, matches_of, rows_of};
ghost use Rattle.clap.specs.Words.{rule_of, with_rule};
ghost use Rattle.desk_cli.specs.{IsRefusalOf, is_set};
ghost use Rattle.genealogy_picture.specs.Words.{node_asked, bare_app, file_rule, format_of};
ghost use Rattle.genealogy_picture.specs.Words.{flag_rule, id_rule, names, picture_app};
ghost use Rattle.genealogy_picture.specs.Words.{with_formats, with_nodes};

use clap::{Arg, ArgAction, ArgMatches, Command};
use desk_cli::{WordsFault, refusal_of};
use std::alloc::{AllocError, Global};

/// The version of the program, which is that of the desk.
const VERSION: &str = "1.0.0";

/// The format of a picture.
#[derive(Clone, Copy, Debug, PartialEq, Eq)]
pub(crate) enum Format {
    /// DOT, which Graphviz draws.
    Dot,
    /// SVG, which a browser shows.
    Svg,
}

/// Which node the picture is of.
#[derive(Clone, Copy)]
pub(crate) enum Asked<'a> {
    /// None is named.
    Nothing,
    /// The lot of this id.
    Lot(&'a str),
    /// The batch of this id.
    Batch(&'a str),
}

/// The arguments of the program.
#[derive(Clone, Copy)]
pub(crate) struct PictureWords<'a> {
    /// The name of the file, none for standard input.
    pub(crate) file: Option<&'a str>,
    /// Which node the picture is of.
    pub(crate) asked: Asked<'a>,
    /// In which format.
    pub(crate) format: Format,
}

fn file_argument<'a>(alloc: Global) -> Arg<'a>
    ensures rule { rule_of result ≡ file_rule }
    ensures local { result.global ≡ false }
{
    Arg::new(alloc, "file").value_name("FILE").help(
        "The file of the answers; standard input where none is named",
    )
}

/// An id that may be given under this name.
fn id_argument<'a>(alloc: Global, name: &'a str, shown: &'a str, help: &'a str) -> Arg<'a>
    ensures rule { rule_of result ≡ id_rule name.entry.now }
    ensures local { result.global ≡ false }
{
    Arg::new(alloc, name)
        .long(name)
        .value_name(shown)
        .help(help)
}

/// A flag of this name.
fn flag_argument<'a>(alloc: Global, name: &'a str, help: &'a str) -> Arg<'a>
    ensures rule { rule_of result ≡ flag_rule name.entry.now }
    ensures local { result.global ≡ false }
{
    Arg::new(alloc, name)
        .long(name)
        .action(ArgAction::SetTrue)
        .help(help)
}

/// The command with its file.
fn plain_command<'a>(alloc: Global) -> Result<Command<'a>, AllocError>
    ensures app { IfOk result (λ c. app_of c ≡ with_rule bare_app file_rule) }
{
    Command::new(alloc, "genealogy_picture")
        .about("Draw the genealogy that answers of the desk with edges tell")
        .version(VERSION)
        .after_help(
            "Example: genealogy_picture --lot L-1 answers.jsonl > picture.svg\n\
A line of the file is the answer to back_edges or forward_edges. Several make one picture. SVG is meant for some 300 nodes, DOT for any number;\n\
where both are asked for, it is DOT.\n\
Exit status: 0 where the picture is drawn; 1 where the answers make none; 2 where these words aren't understood; 3 where a read or a write failed;\n\
4 where memory was refused.",
        )
        .arg(file_argument(alloc))
}

/// The command with the node that the picture is of.
fn with_nodes<'a>(alloc: Global, command: Command<'a>) -> Result<Command<'a>, AllocError>
    ensures app { IfOk result (λ c. app_of c ≡ with_nodes (app_of command.entry)) }
{
    command
        .arg(id_argument(
            alloc,
            "lot",
            "LOT",
            "Name this lot in the heading of SVG, and mark it",
        ))?
        .arg(id_argument(
            alloc,
            "batch",
            "BATCH",
            "The same of this batch; a lot goes before it",
        ))
}

/// The command with the formats.
fn with_formats<'a>(alloc: Global, command: Command<'a>) -> Result<Command<'a>, AllocError>
    ensures app { IfOk result (λ c. app_of c ≡ with_formats (app_of command.entry)) }
{
    command
        .arg(flag_argument(alloc, "dot", "Write DOT, which Graphviz draws"))?
        .arg(flag_argument(
            alloc,
            "svg",
            "Write SVG, which a browser shows, as without this word",
        ))
}

fn command_line<'a>(alloc: Global) -> Result<Command<'a>, AllocError>
    ensures { IfOk result (λ c. app_of c ≡ picture_app) }
{
    let plain = plain_command(alloc)?;
    let named = with_nodes(alloc, plain)?;
    with_formats(alloc, named)
}

fn value_of<'a>(matches: &ArgMatches<'a>, id: &str) -> Option<&'a str>
    ensures { option_map (λ s. s.now) result ≡ first_of id.now (rows_of (found_of matches.now)) }
{
    matches.get_str(id)
}

/// Whether the flag of this name is given.
fn is_set(matches: &ArgMatches<'_>, name: &str) -> bool
    ensures { result ≡ is_set (first_of name.now (rows_of (found_of matches.now))) }
{
    match value_of(matches, name) {
        Some(text) => text == "true",
        None => false,
    }
}

/// Which node the arguments name.
fn node_asked<'a>(matches: &ArgMatches<'a>) -> Asked<'a>
    ensures { names result ≡ node_asked (rows_of (found_of matches.now)) }
{
    if let Some(lot) = value_of(matches, "lot") {
        return Asked::Lot(lot);
    }
    match value_of(matches, "batch") {
        Some(batch) => Asked::Batch(batch),
        None => Asked::Nothing,
    }
}

/// The format that the arguments ask for: SVG, where they don't ask for DOT.
fn format_of(matches: &ArgMatches<'_>) -> Format
    ensures { result ≡ format_of (rows_of (found_of matches.now)) }
{
    if is_set(matches, "dot") {
        Format::Dot
    } else {
        Format::Svg
    }
}

/// Reads the arguments of a command line, the program's name first.
///
/// `Usage` comes where they aren't understood, `Help` where they ask for help or for the version, and `Memory` for want of memory.
pub(crate) fn read_words<'a>(
    alloc: Global,
    words: &'a [&'a str],
) -> Result<PictureWords<'a>, WordsFault>
    ensures named { IfOk result (λ w. option_map (λ s. s.now) w.file
        ≡ first_of (codes "file") (matches_of picture_app (map (λ s. s.now) words.entry.now))) }
    ensures format { IfOk result (λ w. w.format ≡ format_of (matches_of picture_app (map (λ s. s.now) words.entry.now))) }
    ensures asked { IfOk result (λ w. names w.asked ≡ node_asked (matches_of picture_app (map (λ s. s.now) words.entry.now))) }
    ensures taken { IfOk result (λ _. fault_of picture_app (map (λ s. s.now) words.entry.now) ≡ []) }
    ensures refused { IfErr result
        (λ fault. IsRefusalOf (fault_of picture_app (map (λ s. s.now) words.entry.now)) fault) }
{
    let Ok(command) = command_line(alloc) else {
        return Err(WordsFault::Memory);
    };
    match command.try_get_matches_from(words) {
        Ok(matches) => Ok(PictureWords {
            file: value_of(&matches, "file"),
            asked: node_asked(&matches),
            format: format_of(&matches),
        }),
        Err(error) => Err(refusal_of(alloc, error)),
    }
}
