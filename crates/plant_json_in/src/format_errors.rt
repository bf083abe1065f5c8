//! What is wrong with a line, and the texts of it.
ghost use Rattle.std.specs.Prelude.{◌≡◌, Some, IfErr, IsErrOf};
ghost use Rattle.plant_json_in.specs.declared.format_errors.FormatError.TheVariants as format_error;
ghost use Rattle.plant_json_in.specs.FormatErrors.{shape_error_text, format_error_text};
ghost use Rattle.plant_json_in.specs.FormatErrors.{Reports, object, or_malformed};

use crate::members::Member;
use plant_base::Text;
use std::fmt;
use thiserror::Error;

/// What is wrong with an object.
#[derive(Clone, Copy, Debug, PartialEq, Eq)]
pub enum ShapeError {
    /// It is none.
    NoObject,
    /// It lacks the member.
    Missing(Member),
    /// The value of the member breaks its rule.
    Breaks(Member),
    /// It has a member of another name, which is named where it is a text.
    Other(Option<Text>),
    /// It has none of the flaws above, and yet isn't well formed. It is never reported.
    Malformed,
}

impl fmt::Display for ShapeError {
    ghost output = { λ shape_error. Some (shape_error_text shape_error) };

    fn fmt<W: fmt::Write>(&self, f: &mut fmt::Formatter<W>) -> fmt::Result {
        match self {
            ShapeError::NoObject => f.write_str("not a JSON object"),
            ShapeError::Missing(member) => {
                let name = member.name();
                write!(f, "member {name} is missing")
            }
            ShapeError::Breaks(member) => {
                let name = member.name();
                let rule = member.rule();
                write!(f, "{name} is not {rule}")
            }
            ShapeError::Other(Some(text)) => {
                let name = text.as_str();
                write!(f, "member {name} doesn't belong here")
            }
            ShapeError::Other(None) => f.write_str(
                "a member doesn't belong here whose name is no text",
            ),
            ShapeError::Malformed => f.write_str("neither a command nor a question"),
        }
    }
}

impl std::error::Error for ShapeError {}

/// What is wrong with a line.
#[derive(Clone, Copy, Debug, PartialEq, Eq)]
pub enum FormatError {
    /// It is longer than 262,144 bytes.
    TooLong,
    /// It is no JSON text in UTF-8.
    NoJson,
    /// Its object has neither `do` nor `ask`.
    Neither,
    /// It asks about the genealogy of a lot or batch and names neither.
    NothingTraced,
    /// Its object has this flaw.
    Object(ShapeError),
    /// An item of a list in it has this flaw. The items are counted from 1 on.
    Item {
        /// The member that the list is in.
        list: Member,
        /// Which item it is, counted from 1 on.
        number: usize,
        /// What is wrong with it.
        shape_error: ShapeError,
    },
}

impl fmt::Display for FormatError {
    ghost output = { λ format_error. Some (format_error_text format_error) };

    fn fmt<W: fmt::Write>(&self, f: &mut fmt::Formatter<W>) -> fmt::Result {
        match self {
            FormatError::TooLong => f.write_str("longer than 262144 bytes"),
            FormatError::NoJson => f.write_str("not a JSON text"),
            FormatError::Neither => f.write_str("neither do nor ask is there"),
            FormatError::NothingTraced => f.write_str("neither lot nor batch is there"),
            FormatError::Object(shape_error) => write!(f, "{shape_error}"),
            FormatError::Item {
                list,
                number,
                shape_error,
            } => {
                let name = list.name();
                write!(f, "{name} {number}: {shape_error}")
            }
        }
    }
}

impl std::error::Error for FormatError {}

/// Why nothing was read.
#[derive(Clone, Copy, Debug, PartialEq, Eq, Error)]
pub enum ReadFault {
    /// This is wrong.
    #[error("{0}")]
    Reported(FormatError),
    /// Memory was refused. Nothing is said of what was to be read.
    #[error("out of memory")]
    Memory,
}

/// Why a line says nothing, without its problem.
#[derive(Clone, Copy, Debug, PartialEq, Eq, Error)]
pub enum LineFault {
    /// The line is longer than 262,144 bytes or no JSON text in UTF-8, or its value has the shape of no command and of no question.
    #[error("no command and no question")]
    BadForm,
    /// Memory was refused while the line was read. Nothing is said of the line.
    #[error("out of memory")]
    Memory,
}

/// What was read of the line's object: a flaw is that of the line.
/// `Reported` of that problem exactly where there is a flaw.
pub fn object<T: Drop>(read: Result<T, ShapeError>) -> Result<T, ReadFault>
    ensures reads { Reports result (object read) }
    ensures reported { IfErr read (λ shape_error. IsErrOf result (ReadFault.Reported (format_error.Object shape_error))) }
{
    match read {
        Ok(value) => Ok(value),
        Err(shape_error) => Err(ReadFault::Reported(FormatError::Object(shape_error))),
    }
}

/// What was made of an object's values, which have the types of its shape: so something always is.
/// `Malformed` exactly where nothing was made.
pub fn or_malformed<T: Drop>(value: Option<T>) -> Result<T, ShapeError>
    ensures { result ≡ or_malformed value }
{
    match value {
        Some(value) => Ok(value),
        None => Err(ShapeError::Malformed),
    }
}
