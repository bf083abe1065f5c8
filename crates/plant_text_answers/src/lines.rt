//! The lines of the sections.
ghost use Rattle.std.specs.Prelude.{◌≡◌, Some};
ghost use Rattle.plant_text_answers.specs.Record.{consumed_text, control_text, event_text, event_word};
ghost use Rattle.plant_text_answers.specs.Record.{produced_text, recipe_line_text, sublot_text, with_lf};

use crate::items::{AtBy, InSix, InThree, Measured};
use plant_base::{BatchEvent, DisplayItem, Event, Id, RecipeLine, Unit};
use plant_questions::{Booking, MeasuredLine};
use std::fmt;

/// A line of a recipe, with the unit of its amount.
#[derive(Clone, Copy)]
struct RecipeWords {
    line: RecipeLine,
    unit: Option<Unit>,
}

impl fmt::Display for RecipeWords {
    ghost output = { λ l. Some (recipe_line_text l.line l.unit) };

    fn fmt<W: fmt::Write>(&self, f: &mut fmt::Formatter<W>) -> fmt::Result {
        let unit = self.unit;
        match self.line {
            RecipeLine::In { def, amount } => {
                let what = Measured { def, amount, unit };
                write!(f, "in {what}")
            }
            RecipeLine::Out { def, amount } => {
                let what = Measured { def, amount, unit };
                write!(f, "out {what}")
            }
            RecipeLine::Parameter { name, value } => {
                let name = name.as_str();
                let value = value.as_str();
                write!(f, "par {name} {value}")
            }
            RecipeLine::Phase {
                unit_procedure,
                operation,
                phase,
            } => {
                let procedure = unit_procedure.as_str();
                let operation = operation.as_str();
                let phase = phase.as_str();
                write!(f, "phase {procedure} {operation} {phase}")
            }
        }
    }
}

/// A line of the control recipe.
#[derive(Clone, Copy)]
pub(crate) struct ControlLineText;

impl DisplayItem<MeasuredLine> for ControlLineText {
    ghost text = { λ _ m. with_lf (control_text m) };

    fn show<W: fmt::Write>(
        &self,
        measured: &MeasuredLine,
        f: &mut fmt::Formatter<W>,
    ) -> fmt::Result {
        let number = InThree(measured.line.number);
        let words = RecipeWords {
            line: measured.line.line,
            unit: measured.unit,
        };
        writeln!(f, "{number} {words}")
    }
}

/// What an event is called.
#[derive(Clone, Copy)]
struct EventName(Event);

impl fmt::Display for EventName {
    ghost output = { λ e. Some (event_word e.0) };

    fn fmt<W: fmt::Write>(&self, f: &mut fmt::Formatter<W>) -> fmt::Result {
        match self.0 {
            Event::Moved(word) => f.write_str(word.name()),
            Event::PhaseDone(phase) => write!(f, "phase {phase}"),
            Event::Closed => f.write_str("close"),
        }
    }
}

/// The line of an event.
#[derive(Clone, Copy)]
pub(crate) struct EventLine;

impl DisplayItem<BatchEvent> for EventLine {
    ghost text = { λ _ e. with_lf (event_text e) };

    fn show<W: fmt::Write>(&self, event: &BatchEvent, f: &mut fmt::Formatter<W>) -> fmt::Result {
        let seq = InSix(event.seq);
        let word = EventName(event.event);
        let reported = AtBy {
            at: event.at,
            by: event.by,
            note: event.note,
        };
        writeln!(f, "{seq} {word} {reported}")
    }
}

/// A sublot by its lot and its number.
#[derive(Clone, Copy)]
struct SublotText {
    lot: Id,
    sub: u16,
}

impl fmt::Display for SublotText {
    ghost output = { λ s. Some (sublot_text s.lot s.sub) };

    fn fmt<W: fmt::Write>(&self, f: &mut fmt::Formatter<W>) -> fmt::Result {
        let lot = self.lot.as_str();
        let sub = self.sub;
        write!(f, "{lot}/{sub}")
    }
}

/// The line of what was consumed.
#[derive(Clone, Copy)]
pub(crate) struct ConsumedLine;

impl DisplayItem<Booking> for ConsumedLine {
    ghost text = { λ _ b. with_lf (consumed_text b) };

    fn show<W: fmt::Write>(&self, booking: &Booking, f: &mut fmt::Formatter<W>) -> fmt::Result {
        let seq = InSix(booking.seq);
        let sublot = SublotText {
            lot: booking.lot,
            sub: booking.sub,
        };
        let what = Measured {
            def: booking.def,
            amount: booking.amount,
            unit: Some(booking.unit),
        };
        let reported = AtBy {
            at: booking.at,
            by: booking.by,
            note: booking.note,
        };
        writeln!(f, "{seq} {sublot} {what} {reported}")
    }
}

/// The line of what was produced.
#[derive(Clone, Copy)]
pub(crate) struct ProducedLine;

impl DisplayItem<Booking> for ProducedLine {
    ghost text = { λ _ b. with_lf (produced_text b) };

    fn show<W: fmt::Write>(&self, booking: &Booking, f: &mut fmt::Formatter<W>) -> fmt::Result {
        let seq = InSix(booking.seq);
        let lot = booking.lot.as_str();
        let what = Measured {
            def: booking.def,
            amount: booking.amount,
            unit: Some(booking.unit),
        };
        let scrapped = booking.scrapped;
        let reported = AtBy {
            at: booking.at,
            by: booking.by,
            note: booking.note,
        };
        writeln!(f, "{seq} {lot} {what} scrapped {scrapped} {reported}")
    }
}
