//! What the arguments of the command line mean, as clap matched them.
ghost use Rattle.std.specs.Prelude.{◌≡◌, codes};
ghost use Rattle.clap.specs.Words.{all_of, first_of, found_of, rows_of, subcommand_rows_of};
ghost use Rattle.desk_cli.specs.Meaning.{all_meant, hosts_given, import_in, is_set, meant_by};
ghost use Rattle.desk_cli.specs.Meaning.{meant_in, most_ahead_of, page_in, record_in, serving_in, task_work};
ghost use Rattle.desk_cli.specs.Meaning.{trace_in, work_in};

use crate::argument::Argument;
use crate::hosts::{Hosts, hosts_of};
use crate::meaning::{Serving, Task, Words, Work};
use crate::values::{
    direction_at, id_at, moment_at, number_at, optional_field_name_at, optional_id_at,
    optional_language_at, optional_name_at, optional_number_at, text_at, value_of, values_of,
};
use clap::ArgMatches;

/// The file name that means a store in memory.
const IN_MEMORY: &str = ":memory:";

/// The greatest port.
pub(crate) const GREATEST_PORT: u16 = u16::MAX;

/// The most connections that are served.
pub(crate) const MOST_CONNECTIONS: u32 = 1_000_000;

/// The most seconds that can be said of a command that is ahead.
pub(crate) const GREATEST_AHEAD: u32 = 1_000_000;

/// By how many seconds a command may be ahead of the machine's clock where the page is served and nothing is said.
const AHEAD_WITH_PAGE: u32 = 300;

/// The import of the arguments.
fn import_in(matches: &ArgMatches<'_>) -> Result<Task, Argument>
    ensures { result ≡ import_in (rows_of (found_of matches.now)) }
{
    let at = moment_at(matches, Argument::At)?;
    let by = text_at(matches, Argument::By)?;
    let reference = optional_id_at(matches, Argument::Reference)?;
    Ok(Task::Import { at, by, reference })
}

/// The trace of the arguments.
fn trace_in(matches: &ArgMatches<'_>) -> Result<Task, Argument>
    ensures { result ≡ trace_in (rows_of (found_of matches.now)) }
{
    let direction = direction_at(matches, Argument::Direction)?;
    let lot = id_at(matches, Argument::Lot)?;
    Ok(Task::Trace { direction, lot })
}

/// The record of the arguments.
fn record_in(matches: &ArgMatches<'_>) -> Result<Task, Argument>
    ensures { result ≡ record_in (rows_of (found_of matches.now)) }
{
    let batch = id_at(matches, Argument::Batch)?;
    Ok(Task::Record { batch })
}

/// Whether the flag of this name is given.
pub(crate) fn is_set(matches: &ArgMatches<'_>, name: &str) -> bool
    ensures { result ≡ is_set (first_of name.now (rows_of (found_of matches.now))) }
{
    match value_of(matches, name) {
        Some(text) => text == "true",
        None => false,
    }
}

/// The names of hosts that are given, none where none is.
fn hosts_given(matches: &ArgMatches<'_>) -> Result<Hosts, Argument>
    ensures { result ≡ hosts_given (all_of (codes "host") (rows_of (found_of matches.now))) }
{
    match values_of(matches, "host") {
        Some(texts) => hosts_of(texts).ok_or(Argument::Host),
        None => Ok(Hosts::none()),
    }
}

/// Whether the page is served, and under which further names. Names are given with the page alone.
fn page_in(matches: &ArgMatches<'_>) -> Result<Option<Hosts>, Argument>
    ensures { result ≡ page_in (rows_of (found_of matches.now)) }
{
    if is_set(matches, "page") {
        return Ok(Some(hosts_given(matches)?));
    }
    match values_of(matches, "host") {
        Some(_) => Err(Argument::Host),
        None => Ok(None),
    }
}

/// By how many seconds a command may be ahead of the machine's clock: as many as are said, which 0 leaves open, and where nothing is
/// said 300 with the page, and else any.
fn most_ahead_of(with_page: bool, said: Option<u32>) -> Option<u32>
    ensures { result ≡ most_ahead_of with_page said }
{
    match said {
        Some(seconds) => { if seconds >= 1 { Some(seconds) } else { None } }
        None => {
            if with_page {
                Some(AHEAD_WITH_PAGE)
            } else {
                None
            }
        }
    }
}

/// The serving of the arguments.
fn serving_in(matches: &ArgMatches<'_>) -> Result<Serving, Argument>
    ensures { result ≡ serving_in (rows_of (found_of matches.now)) }
{
    let port = number_at(matches, Argument::Port, 1, u64::from(GREATEST_PORT))?;
    let count = number_at(matches, Argument::Count, 1, u64::from(MOST_CONNECTIONS))?;
    let page = page_in(matches)?;
    let ahead = optional_number_at(matches, Argument::Ahead, GREATEST_AHEAD)?;
    let operator_field = optional_field_name_at(matches, Argument::OperatorField)?;
    let name = optional_name_at(matches, Argument::Name)?;
    let language = optional_language_at(matches, Argument::Language)?;
    Ok(Serving {
        port: port as u16,
        count: count as u32,
        is_logged: is_set(matches, "log"),
        page,
        most_ahead: most_ahead_of(page.is_some(), ahead),
        needs_references: is_set(matches, "references"),
        operator_field,
        name,
        language,
    })
}

/// The work that does a task, where one was read.
fn task_work(task: Result<Task, Argument>) -> Result<Work, Argument>
    ensures { result ≡ task_work task }
{
    Ok(Work::Task(task?))
}

/// The work over the file by the subcommand `name` and its arguments.
#[tactic(auto, unfolding(crate::specs::Meaning::work_in))]
fn work_in(name: &str, matches: &ArgMatches<'_>) -> Result<Work, Argument>
    ensures { result ≡ work_in name.now (rows_of (found_of matches.now)) }
{
    if name == "init" {
        return Ok(Work::Task(Task::Init));
    }
    if name == "run" {
        return Ok(Work::Task(Task::Run));
    }
    if name == "import" {
        return task_work(import_in(matches));
    }
    if name == "trace" {
        return task_work(trace_in(matches));
    }
    if name == "record" {
        return task_work(record_in(matches));
    }
    if name == "verify" {
        return Ok(Work::Task(Task::Verify));
    }
    if name == "serve" {
        return Ok(Work::Serve(serving_in(matches)?));
    }
    Err(Argument::Word)
}

/// What the subcommand `name` and its arguments mean.
fn words_at<'a>(name: &str, matches: &ArgMatches<'a>) -> Result<Words<'a>, Argument>
    ensures { all_meant result ≡ meant_by name.now (rows_of (found_of matches.now)) }
{
    match value_of(matches, "file") {
        Some(file) => Ok(Words {
            file,
            work: work_in(name, matches)?,
        }),
        None => Err(Argument::File),
    }
}

/// What the arguments mean, as clap matched them, or the first one whose value breaks its rule: none at all is `run :memory:`.
pub(crate) fn words_in<'a>(matches: &ArgMatches<'a>) -> Result<Words<'a>, Argument>
    ensures { all_meant result ≡ meant_in (subcommand_rows_of matches.now) }
{
    match matches.subcommand() {
        None => Ok(Words {
            file: IN_MEMORY,
            work: Work::Task(Task::Run),
        }),
        Some((name, inner)) => words_at(name, inner),
    }
}
