//! Items of a line.
ghost use Rattle.std.specs.Prelude.{◌≡◌, Some};
ghost use Rattle.plant_text_answers.specs.Record.{at_by, measured, noted, right_in, unit_word};

use plant_base::{Amount, Id, Moment, Text, Unit};
use std::fmt;

/// A number right in three places.
#[derive(Clone, Copy)]
pub(crate) struct InThree(pub(crate) u16);

impl fmt::Display for InThree {
    ghost output = { λ number. Some (right_in 3 number.0) };

    fn fmt<W: fmt::Write>(&self, f: &mut fmt::Formatter<W>) -> fmt::Result {
        let number = self.0;
        write!(f, "{number:>3}")
    }
}

/// A number right in six places.
#[derive(Clone, Copy)]
pub(crate) struct InSix(pub(crate) u64);

impl fmt::Display for InSix {
    ghost output = { λ number. Some (right_in 6 number.0) };

    fn fmt<W: fmt::Write>(&self, f: &mut fmt::Formatter<W>) -> fmt::Result {
        let number = self.0;
        write!(f, "{number:>6}")
    }
}

/// A note after its line, with a blank before it: nothing where it is empty.
#[derive(Clone, Copy)]
struct Noted(Text);

impl fmt::Display for Noted {
    ghost output = { λ note. Some (noted note.0) };

    #[tactic(auto, unfolding(crate::specs::Record::noted))]
    fn fmt<W: fmt::Write>(&self, f: &mut fmt::Formatter<W>) -> fmt::Result {
        let note = self.0.as_str();
        if note.len() == 0 {
            return Ok(());
        }
        write!(f, " note {note}")
    }
}

/// When, by whom, and the note.
#[derive(Clone, Copy)]
pub(crate) struct AtBy {
    pub(crate) at: Moment,
    pub(crate) by: Text,
    pub(crate) note: Text,
}

impl fmt::Display for AtBy {
    ghost output = { λ reported. Some (at_by reported.at reported.by reported.note) };

    fn fmt<W: fmt::Write>(&self, f: &mut fmt::Formatter<W>) -> fmt::Result {
        let at = self.at.get();
        let by = self.by.as_str();
        let noted = Noted(self.note);
        write!(f, "at {at} by {by}{noted}")
    }
}

/// The unit of an amount, `?` where it isn't known.
#[derive(Clone, Copy)]
pub(crate) struct UnitText(pub(crate) Option<Unit>);

impl fmt::Display for UnitText {
    ghost output = { λ unit. Some (unit_word unit.0) };

    fn fmt<W: fmt::Write>(&self, f: &mut fmt::Formatter<W>) -> fmt::Result {
        match self.0 {
            Some(unit) => f.write_str(unit.as_str()),
            None => f.write_str("?"),
        }
    }
}

/// An amount of a definition, in its unit.
#[derive(Clone, Copy)]
pub(crate) struct Measured {
    pub(crate) def: Id,
    pub(crate) amount: Amount,
    pub(crate) unit: Option<Unit>,
}

impl fmt::Display for Measured {
    ghost output = { λ what. Some (measured what.def what.amount (unit_word what.unit)) };

    fn fmt<W: fmt::Write>(&self, f: &mut fmt::Formatter<W>) -> fmt::Result {
        let def = self.def.as_str();
        let amount = self.amount.get();
        let unit = UnitText(self.unit);
        write!(f, "{def} {amount} {unit}")
    }
}
