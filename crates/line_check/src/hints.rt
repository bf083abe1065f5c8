//! Hints on bad lines: what is probably meant. A hint goes to standard error, apart from the report; nothing is promised of it.

use crate::command_words::command_words;
use crate::question_words::question_words;
use jiff::Timestamp;
use plant_json_in::{FormatError, Member, ShapeError, command_kind, own_of, shared_members};
use plant_text::write_line;
use plant_text_checks::Reason;
use serde_json::Value;
use std::alloc::{AllocError, Global};
use std::io::Write;
use std::{fmt, str};
use strsim::levenshtein;

/// Hints are given on bad lines among so many, the first of an input.
pub(crate) const MOST_HINTED: u64 = 1000;

/// Words with more letters are taken for no slip.
const LONGEST_SLIP: usize = 40;

/// The greatest moment. A greater number is taken for milliseconds where these are a moment.
const GREATEST_SECONDS: u64 = 253_402_300_799;

/// What is probably meant.
#[derive(Clone, Copy, Debug, PartialEq, Eq)]
enum Hint {
    /// This word, of those that may be there.
    Nearest(&'static str),
    /// A moment is in seconds.
    Seconds,
    /// The moment is so many seconds.
    SecondsAre(u64),
    /// A mark of byte order goes before the line.
    ByteOrderMark,
    /// This byte, from 1 on, begins no character of UTF-8.
    NoUtf8(usize),
    /// At this byte, from 1 on, the JSON text breaks, for this reason.
    Breaks(usize, Break),
}

/// Why a JSON text breaks.
#[derive(Clone, Copy, Debug, PartialEq, Eq)]
enum Break {
    /// It ends too soon.
    End,
    /// A single quote is there.
    SingleQuote,
    /// Nothing follows a comma.
    Comma,
    /// A second object begins.
    SecondObject,
    /// A control character is in a text.
    Control,
    /// Something else.
    Other,
}

impl fmt::Display for Break {
    fn fmt<W: fmt::Write>(&self, f: &mut fmt::Formatter<W>) -> fmt::Result {
        f.write_str(match self {
            Break::End => "the text ends too soon: a bracket or a quote is missing",
            Break::SingleQuote => "texts and names stand in double quotes",
            Break::Comma => "nothing follows the comma before it",
            Break::SecondObject => "a second object begins, and a line is one",
            Break::Control => "a control character in a text is written as an escape, as \\t",
            Break::Other => "something else is expected",
        })
    }
}

impl fmt::Display for Hint {
    fn fmt<W: fmt::Write>(&self, f: &mut fmt::Formatter<W>) -> fmt::Result {
        match self {
            Hint::Nearest(word) => write!(f, "perhaps {word} is meant"),
            Hint::Seconds => f.write_str("at is a number of seconds since 1970-01-01T00:00:00Z"),
            Hint::SecondsAre(seconds) => {
                let seconds = *seconds;
                write!(
                    f,
                    "at is a number of seconds since 1970-01-01T00:00:00Z, here {seconds}"
                )
            }
            Hint::ByteOrderMark => f.write_str(
                "a mark of byte order goes before the line: save the file as UTF-8 without one",
            ),
            Hint::NoUtf8(byte) => {
                let byte = *byte;
                write!(f, "byte {byte} is no UTF-8: save the file as UTF-8")
            }
            Hint::Breaks(byte, why) => {
                let byte = *byte;
                let why = *why;
                write!(f, "at byte {byte}: {why}")
            }
        }
    }
}

/// The search for the word nearest to what was found, of which only some letters may differ.
#[derive(Clone, Copy)]
struct Search<'a> {
    found: &'a str,
    /// More letters differ than may.
    bound: usize,
    nearest: Option<&'static str>,
}

impl<'a> Search<'a> {
    fn of(found: &'a str) -> Search<'a> {
        let is_slip = found.len() <= LONGEST_SLIP;
        Search {
            found,
            bound: if is_slip { found.len() / 3 + 2 } else { 0 },
            nearest: None,
        }
    }

    /// The search with a word more.
    fn with(self, alloc: Global, word: &'static str) -> Result<Search<'a>, AllocError> {
        if self.bound == 0 {
            return Ok(self);
        }
        let distance = levenshtein(alloc, self.found, word)?;
        if distance >= self.bound {
            return Ok(self);
        }
        Ok(Search {
            found: self.found,
            bound: distance,
            nearest: Some(word),
        })
    }

    /// The search with words more.
    fn with_all(self, alloc: Global, words: &[&'static str]) -> Result<Search<'a>, AllocError> {
        let mut search = self;
        for word in words {
            search = search.with(alloc, *word)?;
        }
        Ok(search)
    }

    /// The search with the names of members more.
    fn with_members(self, alloc: Global, members: &[Member]) -> Result<Search<'a>, AllocError> {
        let mut search = self;
        for member in members {
            search = search.with(alloc, member.name())?;
        }
        Ok(search)
    }

    fn hint(self) -> Option<Hint> {
        match self.nearest {
            Some(word) => Some(Hint::Nearest(word)),
            None => None,
        }
    }
}

/// The text of an object's member, where it is one.
fn text_at<'v>(value: &'v Value, name: &str) -> Option<&'v str> {
    value.get(name)?.as_str()
}

/// What is meant by the name of a member that a command hasn't.
fn member_hint(alloc: Global, value: &Value, found: &str) -> Result<Option<Hint>, AllocError> {
    let search = Search::of(found);
    let Some(word) = text_at(value, "do") else {
        return Ok(None);
    };
    let Some(kind) = command_kind(word) else {
        return Ok(None);
    };
    let search = search.with_members(alloc, shared_members())?;
    Ok(search.with_members(alloc, own_of(kind))?.hint())
}

/// Whether a command has a member of this name.
fn has_member(value: &Value, name: &str) -> bool {
    let Some(word) = text_at(value, "do") else {
        return false;
    };
    match command_kind(word) {
        Some(kind) => {
            shared_members().iter().any(|member| member.name() == name)
                || own_of(kind).iter().any(|member| member.name() == name)
        }
        None => false,
    }
}

/// Which of a command's members is probably the one that is missing, under another name.
fn misnamed_hint(
    alloc: Global,
    value: &Value,
    missing: Member,
) -> Result<Option<Hint>, AllocError> {
    let Some(map) = value.as_object() else {
        return Ok(None);
    };
    for (name, _) in map.iter() {
        let name = name.as_str();
        if has_member(value, name) {
            continue;
        }
        if let Some(hint) = Search::of(name).with(alloc, missing.name())?.hint() {
            return Ok(Some(hint));
        }
    }
    Ok(None)
}

/// What is meant by a moment that is none.
fn moment_hint(value: &Value) -> Hint {
    let Some(at) = value.get("at") else {
        return Hint::Seconds;
    };
    if let Some(number) = at.as_u64() {
        let is_milliseconds = GREATEST_SECONDS < number && number / 1000 <= GREATEST_SECONDS;
        return if is_milliseconds {
            Hint::SecondsAre(number / 1000)
        } else {
            Hint::Seconds
        };
    }
    match at.as_str() {
        Some(text) => match text.parse::<Timestamp>() {
            Ok(moment) if moment.as_second() >= 0 => Hint::SecondsAre(moment.as_second() as u64),
            _ => Hint::Seconds,
        },
        None => Hint::Seconds,
    }
}

/// A hint on an object that is no command and no question.
fn shape_hint(
    alloc: Global,
    value: &Value,
    shape_error: ShapeError,
) -> Result<Option<Hint>, AllocError> {
    match shape_error {
        ShapeError::Breaks(Member::At) => Ok(Some(moment_hint(value))),
        ShapeError::Breaks(Member::Do) => match text_at(value, "do") {
            Some(word) => Ok(Search::of(word).with_all(alloc, command_words())?.hint()),
            None => Ok(None),
        },
        ShapeError::Breaks(Member::Ask) => match text_at(value, "ask") {
            Some(word) => Ok(Search::of(word).with_all(alloc, question_words())?.hint()),
            None => Ok(None),
        },
        ShapeError::Other(Some(name)) => member_hint(alloc, value, name.as_str()),
        ShapeError::Missing(member) => misnamed_hint(alloc, value, member),
        _ => Ok(None),
    }
}

/// The last byte of these that is no space.
fn last_of(bytes: &[u8]) -> Option<u8> {
    bytes.iter().rev().copied().find(|byte| *byte != b' ')
}

/// Why a line breaks at a byte, counted from 1 on.
fn break_at(line: &[u8], byte: usize) -> Break {
    let Some(found) = line.get(byte.saturating_sub(1)) else {
        return Break::End;
    };
    let before = last_of(&line[..byte.saturating_sub(1)]);
    match (*found, before) {
        (b'\'', _) => Break::SingleQuote,
        (b'}' | b']', Some(b',')) => Break::Comma,
        (b'{', Some(b'}')) => Break::SecondObject,
        (b'"', _) if line.iter().any(|byte| *byte < 32) => Break::Control,
        _ => Break::Other,
    }
}

/// A hint on a line that is no JSON text.
fn json_hint(alloc: Global, line: &[u8]) -> Result<Option<Hint>, AllocError> {
    if line.starts_with(b"\xef\xbb\xbf") {
        return Ok(Some(Hint::ByteOrderMark));
    }
    if let Err(error) = str::from_utf8(line) {
        return Ok(Some(Hint::NoUtf8(error.valid_up_to() + 1)));
    }
    match Value::from_slice(alloc, line) {
        Ok(_) => Ok(None),
        Err(error) if error.is_memory() => Err(AllocError),
        Err(error) => {
            let byte = error.column();
            let why = if error.is_eof() {
                Break::End
            } else {
                break_at(line, byte)
            };
            Ok(Some(Hint::Breaks(byte, why)))
        }
    }
}

/// A hint on a bad line, where there is one.
fn hint_on(alloc: Global, line: &[u8], reason: Reason) -> Result<Option<Hint>, AllocError> {
    match reason {
        Reason::Shape(FormatError::NoJson) => json_hint(alloc, line),
        Reason::Shape(FormatError::Object(shape_error)) => match Value::from_slice(alloc, line) {
            Ok(value) => shape_hint(alloc, &value, shape_error),
            Err(_) => Ok(None),
        },
        _ => Ok(None),
    }
}

/// Writes a hint on the bad line of a number, where there is one. Where memory is refused or the write fails there is none.
pub(crate) fn write_hint<H: Write>(
    alloc: Global,
    writer: &mut H,
    number: u64,
    line: &[u8],
    reason: Reason,
) {
    let Ok(Some(hint)) = hint_on(alloc, line, reason) else {
        return;
    };
    if let Ok(text) = format!(in alloc; "hint on line {number}: {hint}") {
        let _ = write_line(writer, text.as_bytes());
    }
}
