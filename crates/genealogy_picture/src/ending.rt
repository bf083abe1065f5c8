//! How the program ends: why no picture is drawn, and the exit status.
ghost use Rattle.std.specs.Prelude.{◌≡◌, Some};
ghost use Rattle.genealogy_picture.specs.Endings.{refusal_text, status_of, draw_error_text};

use crate::answers::LineError;
use genealogy_svg::GraphError;
use std::alloc::AllocError;
use std::fmt;

/// Why an input makes no picture.
#[derive(Clone, Copy, Debug, PartialEq, Eq)]
pub(crate) enum InputError {
    /// The line of this number is no answer with edges, and this is why.
    Line(u64, LineError),
    /// What its answers report makes none.
    Graph(GraphError),
    /// Its edges lead in a circle, so that it has no layers: only in SVG.
    Circle,
    /// The lot or batch that was asked for is none of it: only in SVG.
    Absent,
}

impl fmt::Display for InputError {
    ghost output = { λ refusal. Some (refusal_text refusal) };

    fn fmt<W: fmt::Write>(&self, f: &mut fmt::Formatter<W>) -> fmt::Result {
        match self {
            InputError::Line(number, line_error) => write!(f, "line {number}: {line_error}"),
            InputError::Graph(graph_error) => write!(f, "{graph_error}"),
            InputError::Circle => f.write_str("the edges lead in a circle"),
            InputError::Absent => f.write_str("the lot or batch that was asked for isn't there"),
        }
    }
}

/// Why no picture is drawn, or not whole.
#[derive(Clone, Copy, Debug, PartialEq, Eq)]
pub(crate) enum DrawError {
    /// The input makes none.
    Refused(InputError),
    /// The file can't be opened.
    Open,
    /// A read failed.
    Read,
    /// The picture couldn't be written whole.
    Write,
    /// Memory was refused.
    Memory,
}

impl From<AllocError> for DrawError {
    ghost use Rattle.genealogy_picture.specs.declared.ending.DrawError.TheVariants as stop;

    ghost from_gives = { λ _ made. made ≡ stop.Memory };

    fn from(_error: AllocError) -> Self {
        DrawError::Memory
    }
}

impl fmt::Display for DrawError {
    ghost output = { λ stop. Some (draw_error_text stop) };

    fn fmt<W: fmt::Write>(&self, f: &mut fmt::Formatter<W>) -> fmt::Result {
        match self {
            DrawError::Refused(refusal) => write!(f, "{refusal}"),
            DrawError::Open => f.write_str("fault: open"),
            DrawError::Read => f.write_str("fault: read"),
            DrawError::Write => f.write_str("fault: write"),
            DrawError::Memory => f.write_str("fault: memory"),
        }
    }
}

/// The exit status of a program that ended so.
pub(crate) fn status_of(end: &Result<(), DrawError>) -> u8
    ensures { result ≡ status_of end.now }
{
    match end {
        Ok(()) => 0,
        Err(DrawError::Refused(_)) => 1,
        Err(DrawError::Open | DrawError::Read | DrawError::Write) => 3,
        Err(DrawError::Memory) => 4,
    }
}
