//! The totals of the record: what was asked for, and what was booked.
ghost use Rattle.std.specs.Prelude.{◌≡◌, Some};
ghost use Rattle.plant_text_answers.specs.Record.{asked_and_booked, input_total, output_total};
ghost use Rattle.plant_text_answers.specs.Record.{totals_text};

use plant_base::{Amount, DisplayItem, Id, Joined, RecipeLine};
use plant_questions::{BatchView, Booking, MeasuredLine, booked_of};
use std::fmt;

/// What was asked for of a definition, and what was booked of it.
#[derive(Clone, Copy)]
struct AskedAndBooked<'a> {
    def: Id,
    asked: Amount,
    bookings: &'a [Booking],
}

impl fmt::Display for AskedAndBooked<'_> {
    ghost output = { λ t. Some (asked_and_booked t.def t.asked t.bookings.now) };

    fn fmt<W: fmt::Write>(&self, f: &mut fmt::Formatter<W>) -> fmt::Result {
        let def = self.def.as_str();
        let asked = self.asked.get();
        let booked = booked_of(self.def, self.bookings);
        write!(f, "{def} asked {asked} booked {booked}")
    }
}

/// The line of an input, with what was consumed; nothing of another line.
#[derive(Clone, Copy)]
struct InputTotal<'a>(&'a [Booking]);

impl DisplayItem<MeasuredLine> for InputTotal<'_> {
    ghost text = { λ t l. input_total t.0.now l.line.line };

    fn show<W: fmt::Write>(
        &self,
        measured: &MeasuredLine,
        f: &mut fmt::Formatter<W>,
    ) -> fmt::Result {
        match measured.line.line {
            RecipeLine::In { def, amount } => {
                let total = AskedAndBooked {
                    def,
                    asked: amount,
                    bookings: self.0,
                };
                writeln!(f, "in {total}")
            }
            RecipeLine::Out { .. } | RecipeLine::Parameter { .. } | RecipeLine::Phase { .. } => {
                Ok(())
            }
        }
    }
}

/// The line of an output, with what was produced; nothing of another line.
#[derive(Clone, Copy)]
struct OutputTotal<'a>(&'a [Booking]);

impl DisplayItem<MeasuredLine> for OutputTotal<'_> {
    ghost text = { λ t l. output_total t.0.now l.line.line };

    fn show<W: fmt::Write>(
        &self,
        measured: &MeasuredLine,
        f: &mut fmt::Formatter<W>,
    ) -> fmt::Result {
        match measured.line.line {
            RecipeLine::Out { def, amount } => {
                let total = AskedAndBooked {
                    def,
                    asked: amount,
                    bookings: self.0,
                };
                writeln!(f, "out {total}")
            }
            RecipeLine::In { .. } | RecipeLine::Parameter { .. } | RecipeLine::Phase { .. } => {
                Ok(())
            }
        }
    }
}

/// The last section: the totals of the inputs, then those of the outputs.
#[derive(Clone, Copy)]
pub(crate) struct Totals<'a>(pub(crate) &'a BatchView);

impl fmt::Display for Totals<'_> {
    ghost output = { λ t. Some (totals_text t.0.now) };

    fn fmt<W: fmt::Write>(&self, f: &mut fmt::Formatter<W>) -> fmt::Result {
        let view = self.0;
        let inputs = Joined(view.lines.as_slice(), InputTotal(view.consumed.as_slice()));
        let outputs = Joined(view.lines.as_slice(), OutputTotal(view.produced.as_slice()));
        write!(f, "TOTALS\n{inputs}{outputs}")
    }
}
