//! Positions as points, in whole numbers, and how they are written.
ghost use Rattle.std.specs.Prelude.{◌≡◌, ◌<◌, ◌^◌, Some};
ghost use Rattle.genealogy_svg.specs.Svg.{left_of, top_of, middle_of, row_line, point, way_point};
ghost use Rattle.genealogy_svg.specs.Svg.{size};

use crate::drawing::BoxPosition;
use std::fmt;

/// The left side of a box.
pub(crate) fn left_of(position: BoxPosition) -> u64
    ensures value { result ≡ left_of position }
    ensures small { result < 2 ^ 42 }
{
    20 + 440 * u64::from(position.layer)
}

/// The upper side of a box.
pub(crate) fn top_of(position: BoxPosition) -> u64
    ensures value { result ≡ top_of position }
    ensures small { result < 2 ^ 42 }
{
    60 + 80 * u64::from(position.slot)
}

/// The middle of a box, from left to right.
pub(crate) fn middle_of(position: BoxPosition) -> u64
    ensures value { result ≡ middle_of position }
    ensures small { result < 2 ^ 43 }
{
    left_of(position) + 90
}

/// How far down the line of an amount of a row is.
pub(crate) fn row_line(row: u32) -> u64
    ensures value { result ≡ row_line row }
    ensures small { result < 2 ^ 42 }
{
    72 + 16 * u64::from(row)
}

/// The attributes of a point.
#[derive(Clone, Copy)]
pub(crate) struct Point {
    pub(crate) x: u64,
    pub(crate) y: u64,
}

impl fmt::Display for Point {
    ghost output = { λ p. Some (point p.x p.y) };

    fn fmt<W: fmt::Write>(&self, f: &mut fmt::Formatter<W>) -> fmt::Result {
        let x = self.x;
        let y = self.y;
        write!(f, " x=\"{x}\" y=\"{y}\"")
    }
}

/// A point on the way of a line.
#[derive(Clone, Copy)]
pub(crate) struct WayPoint {
    pub(crate) x: u64,
    pub(crate) y: u64,
}

impl fmt::Display for WayPoint {
    ghost output = { λ p. Some (way_point p.x p.y) };

    fn fmt<W: fmt::Write>(&self, f: &mut fmt::Formatter<W>) -> fmt::Result {
        let x = self.x;
        let y = self.y;
        write!(f, "{x} {y}")
    }
}

/// The attributes of a size.
#[derive(Clone, Copy)]
pub(crate) struct Size {
    pub(crate) width: u64,
    pub(crate) height: u64,
}

impl fmt::Display for Size {
    ghost output = { λ s. Some (size s.width s.height) };

    fn fmt<W: fmt::Write>(&self, f: &mut fmt::Formatter<W>) -> fmt::Result {
        let width = self.width;
        let height = self.height;
        write!(f, " width=\"{width}\" height=\"{height}\"")
    }
}
