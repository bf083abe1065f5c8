// What is answered of the lines of a batch.
ghost use Rattle.std.specs.Prelude.{◌≡◌, IfOk, map, ℕ, List};
ghost use Rattle.plant_base.specs.{State, batch_at, control_lines_of};
ghost use Rattle.plant_trace.specs.ReadOnly.{ReadOnly};
ghost use Rattle.plant_view.specs.DecisionInvariant.{DecisionInvariant};
ghost use Rattle.plant_questions.specs.{booked_of};
ghost use Rattle.plant_answers_genealogy.specs.{AreBookingsOf};
ghost use Rattle.plant_answers.specs.BatchViews.{measured_line};
ghost use Rattle.plant_answers.specs.BatchLines.{answer_batch_lines, batch_lines, booked_in};
ghost use Rattle.plant_answers.specs.BatchLines.{booked_line, booked_lines};

use crate::batch_answers::measured_lines;
use plant_answers_genealogy::{BatchBookings, bookings_of, in_64_bits};
use plant_base::{Id, Items, RecipeLine, Refusal};
use plant_questions::{Answer, BatchLines, BookedLine, Booking, MeasuredLine, booked_of};
use plant_view::{View, ViewFault, lookup};
use std::alloc::{AllocError, Global};

/// The control recipe of a batch, with what was booked of each line.
pub(crate) fn batch_lines_answer<V: View>(
    alloc: Global,
    view: &mut V,
    id: Id,
) -> Result<Answer, ViewFault<V::Fault>>
    ensures { ReadOnly V.Edges view.old view.new
        (DecisionInvariant (V.state view.old)
        → IfOk result (λ a. a ≡ answer_batch_lines (V.state view.old) (batch_at (V.state view.old) id))) }
{
    let Some(row) = lookup::batch(view, id)? else {
        return Ok(Answer::Unknown(Refusal::UnknownBatch));
    };
    Ok(Answer::BatchLines(batch_lines(alloc, view, row.batch.id)?))
}

fn batch_lines<V: View>(
    alloc: Global,
    view: &mut V,
    batch: Id,
) -> Result<BatchLines, ViewFault<V::Fault>>
    ensures { ReadOnly V.Edges view.old view.new (IfOk result (λ a. a ≡ batch_lines (V.state view.old) batch)) }
{
    let lines = booked_lines(alloc, view, batch)?;
    Ok(BatchLines {
        batch,
        lines: Items::new(lines),
    })
}

fn booked_lines<V: View>(
    alloc: Global,
    view: &mut V,
    batch: Id,
) -> Result<Vec<BookedLine>, ViewFault<V::Fault>>
    ensures { ReadOnly V.Edges view.old view.new
        (IfOk result (λ v. v.items ≡ booked_lines (V.state view.old) batch)) }
{
    let lines = measured_lines(alloc, view, batch)?;
    let bookings = bookings_of(alloc, view, batch)?;
    let rows = lines_booked(alloc, lines.as_slice(), &bookings)?;
    Ok(rows)
}

// The lines of a batch, by what it took and brought.
fn lines_booked(
    alloc: Global,
    lines: &[MeasuredLine],
    bookings: &BatchBookings,
) -> Result<Vec<BookedLine>, AllocError>
    ensures { (s : State) (batch : List ℕ) → lines.now ≡ map (measured_line s.definitions) (control_lines_of s batch)
        → AreBookingsOf s batch bookings.now → IfOk result (λ v. v.items ≡ booked_lines s batch) }
{
    let consumed = bookings.consumed.as_slice();
    let produced = bookings.produced.as_slice();
    each_booked(alloc, lines, consumed, produced)
}

// Each of the lines, with what was booked of it.
fn each_booked(
    alloc: Global,
    lines: &[MeasuredLine],
    consumed: &[Booking],
    produced: &[Booking],
) -> Result<Vec<BookedLine>, AllocError>
    ensures { IfOk result (λ v. v.items ≡ map (booked_line consumed.now produced.now) lines.now) }
{
    lines
        .iter()
        .map(|line| booked_line(line, consumed, produced))
        .collect(alloc)
}

fn booked_line(line: &MeasuredLine, consumed: &[Booking], produced: &[Booking]) -> BookedLine
    ensures { result ≡ booked_line consumed.now produced.now line.now }
{
    BookedLine {
        measured: *line,
        booked: booked_in(line.line.line, consumed, produced),
    }
}

fn booked_in(line: RecipeLine, consumed: &[Booking], produced: &[Booking]) -> u64
    ensures { result ≡ booked_in consumed.now produced.now line }
{
    match line {
        RecipeLine::In { def, .. } => in_64_bits(booked_of(def, consumed)),
        RecipeLine::Out { def, .. } => in_64_bits(booked_of(def, produced)),
        RecipeLine::Parameter { .. } | RecipeLine::Phase { .. } => 0,
    }
}
