//! Rows that are numbered.

ghost use Rattle.std.specs.Prelude.{◌≡◌, map};
ghost use Rattle.plant_requirements.specs.Recipes.{are_numbered};

use plant_base::{ControlLine, MasterLine, Sublot};

/// A row with a number among its like.
pub trait Numbered {
    ghost use Rattle.std.specs.Prelude.{◌≡◌, ℕ};

    ghost number_of: { Self → ℕ };

    /// Its number.
    fn number(&self) -> u16
        ensures { result ≡ number_of self.now };
}

impl Numbered for MasterLine {
    ghost number_of = { λ l. l.number };

    fn number(&self) -> u16 {
        self.number
    }
}

impl Numbered for ControlLine {
    ghost number_of = { λ l. l.number };

    fn number(&self) -> u16 {
        self.number
    }
}

impl Numbered for Sublot {
    ghost number_of = { λ s. s.number };

    fn number(&self) -> u16 {
        self.number
    }
}

/// Whether the rows are numbered from the first number on, which is 0 or 1.
pub fn are_numbered<R: Numbered>(first: u8, rows: &[R]) -> bool
    ensures { result ≡ are_numbered first (map R.number_of rows.now) }
{
    let mut next = u64::from(first);
    for row in rows {
        if u64::from(row.number()) != next {
            return false;
        }
        next += 1;
    }
    true
}
