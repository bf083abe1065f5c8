//! Why a line is of bad form.
ghost use Rattle.std.specs.Prelude.{Some};
ghost use Rattle.plant_text_checks.specs.Reasons.{reason_text};

use crate::command_errors::CommandError;
use plant_json_in::FormatError;
use std::fmt;

/// Why a line, or a command, is of bad form.
#[derive(Clone, Copy, Debug, PartialEq, Eq)]
pub enum Reason {
    /// It has the shape of no command and of no question.
    Shape(FormatError),
    /// It is a command that the desk refuses as BadForm, whatever its state.
    Command(CommandError),
}

impl fmt::Display for Reason {
    ghost output = { λ reason. Some (reason_text reason) };

    fn fmt<W: fmt::Write>(&self, f: &mut fmt::Formatter<W>) -> fmt::Result {
        match self {
            Reason::Shape(format_error) => write!(f, "{format_error}"),
            Reason::Command(command_error) => write!(f, "{command_error}"),
        }
    }
}
