ghost use Rattle.std.specs.Prelude.{◌≡◌, ◌↔◌, IsOk, IfOk, IfErr, IsTrue};
ghost use Rattle.std.specs.List.{list_all};
ghost use Rattle.plant_values.specs.Dates.{is_due_byte, is_due, is_due_day, due_day_of, two_of};
ghost use Rattle.plant_values.specs.Dates.{is_yes};
ghost use Rattle.plant_values.specs.declared.due.DueFault.TheVariants.{Bad};

use crate::short::{Short, ascii_str};
use jiff::civil::Date;
use std::marker::Model;
use thiserror::Error;

/// A due date as ISO 8601 writes a calendar date, `YYYY-MM-DD`: a day of the civil calendar in the
/// years 2000 to 2099. It takes no memory, and is ordered by its bytes, which is the order of the days.
#[derive(Clone, Copy, Debug, PartialEq, Eq, PartialOrd, Ord)]
pub struct Due {
    text: Short<10>,
}

impl Model for Due {
    ghost use Rattle.std.specs.Prelude.{List, ℕ, IsTrue};
    ghost use Rattle.plant_values.specs.Dates.{is_due};

    ghost Value = { List ℕ };

    ghost view = { λ a. a.text };

    ghost invariant = { λ a. IsTrue (is_due a.text) };

    ghost inverse = { λ v. record { text = v } };
}

/// Why a text is no due date.
#[derive(Clone, Copy, Debug, PartialEq, Eq, Error)]
pub enum DueFault {
    /// The text isn't `YYYY-MM-DD`, or no day of the years 2000 to 2099.
    #[error("no due date")]
    Bad,
    /// Memory was refused. Reading takes none today, so this isn't answered.
    #[error("out of memory")]
    Memory,
}

impl Due {
    /// Reads a due date. `Bad` exactly where the bytes aren't one; no memory is taken.
    pub fn read(bytes: &[u8]) -> Result<Self, DueFault>
        ensures valid { IsOk result ↔ IsTrue (is_due bytes.now) }
        ensures value { IfOk result (λ due. due ≡ bytes.now) }
        ensures fault { IfErr result (λ fault. fault ≡ Bad) }
    {
        if !passes(bytes) {
            return Err(DueFault::Bad);
        }
        match Short::<10>::new(bytes) {
            Some(text) => Ok(Due { text }),
            None => Err(DueFault::Bad),
        }
    }

    /// The ten bytes.
    pub fn as_bytes(&self) -> &[u8]
        ensures value { result.now ≡ self.now }
        ensures valid { IsTrue (is_due self.now) }
    {
        self.text.as_bytes()
    }

    /// The date as a text, which is ASCII.
    pub fn as_str(&self) -> &str
        ensures { result.now ≡ self.now }
    {
        ascii_str(self.as_bytes())
    }
}

fn passes(bytes: &[u8]) -> bool
    ensures { result ≡ is_due bytes.now }
{
    bytes.len() == 10 && are_due_bytes(bytes) && is_said_yes(due_day(bytes))
}

fn are_due_bytes(bytes: &[u8]) -> bool
    ensures { result ≡ list_all is_due_byte bytes.now }
{
    bytes.iter().all(|&byte| is_due_byte(byte))
}

fn is_due_byte(byte: u8) -> bool
    ensures { result ≡ is_due_byte byte }
{
    byte.is_ascii_digit() || byte == b'-'
}

fn is_said_yes(answer: Option<bool>) -> bool
    ensures { result ≡ is_yes answer }
{
    answer.unwrap_or(false)
}

// The number that two digits spell.
#[tactic(auto, unfolding(crate::specs::Dates::two_of))]
fn two(a: u8, b: u8) -> Option<u8>
    ensures { result ≡ two_of a b }
{
    if a.is_ascii_digit() && b.is_ascii_digit() {
        Some((a - b'0') * 10 + (b - b'0'))
    } else {
        None
    }
}

// Whether the calendar has the day.
#[tactic(auto, unfolding(crate::specs::Dates::is_due_day))]
fn is_in_calendar(century: u8, year: u8, month: u8, day: u8) -> bool
    ensures { result ≡ is_due_day century year month day }
{
    if century != 20 || year > 99 || month > 12 || day > 31 {
        return false;
    }
    let date = Date::new(2000 + i16::from(year), month as i8, day as i8);
    date.is_ok()
}

// What the digits say of the calendar.
#[tactic(auto, unfolding(crate::specs::Dates::due_day_of))]
fn due_day(bytes: &[u8]) -> Option<bool>
    ensures { result ≡ due_day_of bytes.now }
{
    if bytes.len() != 10 || bytes[4] != b'-' || bytes[7] != b'-' {
        return None;
    }
    let century = two(bytes[0], bytes[1])?;
    let year = two(bytes[2], bytes[3])?;
    let month = two(bytes[5], bytes[6])?;
    let day = two(bytes[8], bytes[9])?;
    Some(is_in_calendar(century, year, month, day))
}
