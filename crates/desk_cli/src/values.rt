//! The values of the subcommands' arguments, each by its rule.
ghost use Rattle.std.specs.Prelude.{◌≡◌, ◌<◌, ◌^◌, ◌≤◌, IfOk, map, option_map};
ghost use Rattle.clap.specs.Words.{all_of, first_of, found_of, rows_of};
ghost use Rattle.plant_base.specs.{greatest_moment, is_id, is_text, only};
ghost use Rattle.desk_cli.specs.Arguments.{name_of};
ghost use Rattle.desk_cli.specs.FieldNames.{is_field_name, is_language, is_shown_name};
ghost use Rattle.desk_cli.specs.Meaning.{direction_of, if_named, number_in, value_in};

use crate::argument::Argument;
use crate::field_names::{read_field_name, read_language, read_shown_name};
use clap::ArgMatches;
use plant_base::{GREATEST_MOMENT, Id, Moment, Text};
use plant_trace::Direction;

/// The value of an argument.
pub(crate) fn value_of<'a>(matches: &ArgMatches<'a>, id: &str) -> Option<&'a str>
    ensures { option_map (λ s. s.now) result ≡ first_of id.now (rows_of (found_of matches.now)) }
{
    matches.get_str(id)
}

/// The values of an argument, of all its uses.
pub(crate) fn values_of<'m, 'a>(matches: &'m ArgMatches<'a>, id: &str) -> Option<&'m [&'a str]>
    ensures { option_map (λ s. map (λ v. v.now) s.now) result ≡ all_of id.now (rows_of (found_of matches.now)) }
{
    matches.get_raw(id)
}

/// The id that a text says.
fn read_id(text: &str) -> Option<Id>
    ensures { result ≡ only is_id text.now }
{
    Id::read(text.as_bytes())
}

/// The id that an argument is.
pub(crate) fn id_at(matches: &ArgMatches<'_>, argument: Argument) -> Result<Id, Argument>
    ensures { result ≡ value_in argument (only is_id) (rows_of (found_of matches.now)) }
{
    match value_of(matches, argument.name()) {
        Some(text) => read_id(text).ok_or(argument),
        None => Err(argument),
    }
}

/// The id that an argument is, where it is named.
pub(crate) fn optional_id_at(
    matches: &ArgMatches<'_>,
    argument: Argument,
) -> Result<Option<Id>, Argument>
    ensures { result ≡ if_named argument (only is_id)
        (first_of (name_of argument) (rows_of (found_of matches.now))) }
{
    match value_of(matches, argument.name()) {
        Some(text) => match read_id(text) {
            Some(found) => Ok(Some(found)),
            None => Err(argument),
        },
        None => Ok(None),
    }
}

/// The number that an argument is, where it is given: at most this.
pub(crate) fn optional_number_at(
    matches: &ArgMatches<'_>,
    argument: Argument,
    greatest: u32,
) -> Result<Option<u32>, Argument>
    ensures { result ≡ if_named argument (number_in 0 greatest)
        (first_of (name_of argument) (rows_of (found_of matches.now))) }
{
    match value_of(matches, argument.name()) {
        Some(text) => match small_in(text, greatest) {
            Some(number) => Ok(Some(number)),
            None => Err(argument),
        },
        None => Ok(None),
    }
}

/// The name of a field that an argument is, where it is given.
pub(crate) fn optional_field_name_at(
    matches: &ArgMatches<'_>,
    argument: Argument,
) -> Result<Option<Text>, Argument>
    ensures { result ≡ if_named argument (only is_field_name)
        (first_of (name_of argument) (rows_of (found_of matches.now))) }
{
    match value_of(matches, argument.name()) {
        Some(text) => match read_field_name(text) {
            Some(name) => Ok(Some(name)),
            None => Err(argument),
        },
        None => Ok(None),
    }
}

/// The name of a desk that an argument is, where it is given.
pub(crate) fn optional_name_at(
    matches: &ArgMatches<'_>,
    argument: Argument,
) -> Result<Option<Text>, Argument>
    ensures { result ≡ if_named argument (only is_shown_name)
        (first_of (name_of argument) (rows_of (found_of matches.now))) }
{
    match value_of(matches, argument.name()) {
        Some(text) => match read_shown_name(text) {
            Some(name) => Ok(Some(name)),
            None => Err(argument),
        },
        None => Ok(None),
    }
}

/// The language that an argument names, where it is given.
pub(crate) fn optional_language_at(
    matches: &ArgMatches<'_>,
    argument: Argument,
) -> Result<Option<Text>, Argument>
    ensures { result ≡ if_named argument (only is_language)
        (first_of (name_of argument) (rows_of (found_of matches.now))) }
{
    match value_of(matches, argument.name()) {
        Some(text) => match read_language(text) {
            Some(language) => Ok(Some(language)),
            None => Err(argument),
        },
        None => Ok(None),
    }
}

/// The text that an argument is.
pub(crate) fn text_at(matches: &ArgMatches<'_>, argument: Argument) -> Result<Text, Argument>
    ensures { result ≡ value_in argument (only is_text) (rows_of (found_of matches.now)) }
{
    match value_of(matches, argument.name()) {
        Some(text) => Text::read(text.as_bytes()).ok_or(argument),
        None => Err(argument),
    }
}

/// The number that a text spells, with or without a plus before it, where it is one of these.
#[tactic(auto, unfolding(crate::specs::Meaning::number_in))]
fn number_in(text: &str, least: u64, greatest: u64) -> Option<u64>
    ensures { result ≡ number_in least greatest text.now }
{
    match text.parse::<u64>() {
        Ok(number) => {
            if least <= number && number <= greatest {
                Some(number)
            } else {
                None
            }
        }
        Err(_) => None,
    }
}

/// The number that a text spells, where it is at most this.
fn small_in(text: &str, greatest: u32) -> Option<u32>
    ensures { result ≡ number_in 0 greatest text.now }
{
    match number_in(text, 0, u64::from(greatest)) {
        Some(number) => Some(number as u32),
        None => None,
    }
}

/// The number that an argument is, where it is one of these.
pub(crate) fn number_at(
    matches: &ArgMatches<'_>,
    argument: Argument,
    least: u64,
    greatest: u64,
) -> Result<u64, Argument>
    ensures value { result ≡ value_in argument (number_in least greatest) (rows_of (found_of matches.now)) }
    ensures greatest { IfOk result (λ number. number ≤ greatest) }
{
    match value_of(matches, argument.name()) {
        Some(text) => match number_in(text, least, greatest) {
            Some(number) => Ok(number),
            None => Err(argument),
        },
        None => Err(argument),
    }
}

/// The moment that an argument is.
pub(crate) fn moment_at(matches: &ArgMatches<'_>, argument: Argument) -> Result<Moment, Argument>
    ensures { result ≡ value_in argument (number_in 0 greatest_moment) (rows_of (found_of matches.now)) }
{
    let seconds = number_at(matches, argument, 0, GREATEST_MOMENT)?;
    Moment::new(seconds).ok_or(argument)
}

/// The direction that a text names.
fn direction_of(text: &str) -> Option<Direction>
    ensures { result ≡ direction_of text.now }
{
    if text == "back" {
        return Some(Direction::Back);
    }
    if text == "forward" {
        return Some(Direction::Forward);
    }
    None
}

/// The direction that an argument names.
pub(crate) fn direction_at(
    matches: &ArgMatches<'_>,
    argument: Argument,
) -> Result<Direction, Argument>
    ensures { result ≡ value_in argument direction_of (rows_of (found_of matches.now)) }
{
    match value_of(matches, argument.name()) {
        Some(text) => direction_of(text).ok_or(argument),
        None => Err(argument),
    }
}
