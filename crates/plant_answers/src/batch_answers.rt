// What is answered of a batch.
ghost use Rattle.std.specs.Prelude.{◌≡◌, IfOk, map};
ghost use Rattle.plant_base.specs.{State, batch_at, job_at, recipe_at, control_lines_of};
ghost use Rattle.plant_trace.specs.ReadOnly.{ReadOnly};
ghost use Rattle.plant_view.specs.DecisionInvariant.{DecisionInvariant};
ghost use Rattle.plant_view.specs.{progress_at};
ghost use Rattle.plant_answers.specs.Answering.{IsRowOf, IsFoundOf};
ghost use Rattle.plant_answers.specs.BatchViews.{answer_batch, answer_headed, answer_planned};
ghost use Rattle.plant_answers.specs.BatchViews.{batch_view, measured_line};

use plant_answers_genealogy::{BatchBookings, bookings_of};
use plant_answers_pages::{material_of, unit_among};
use plant_base::{BatchEvent, BatchRow, ControlLine, Header, Id, Items, Job, Refusal};
use plant_questions::{Answer, BatchView, MeasuredLine};
use plant_recipe::Progress;
use plant_view::{View, ViewFault, lookup};
use std::alloc::Global;

/// What is known of a batch.
pub(crate) fn batch_answer<V: View>(
    alloc: Global,
    view: &mut V,
    id: Id,
) -> Result<Answer, ViewFault<V::Fault>>
    ensures { ReadOnly V.Edges view.old view.new
        (DecisionInvariant (V.state view.old)
        → IfOk result (λ a. a ≡ answer_batch (V.state view.old) (batch_at (V.state view.old) id))) }
{
    let Some(row) = lookup::batch(view, id)? else {
        return Ok(Answer::Unknown(Refusal::UnknownBatch));
    };
    planned_answer(alloc, view, &row)
}

fn planned_answer<V: View>(
    alloc: Global,
    view: &mut V,
    row: &BatchRow,
) -> Result<Answer, ViewFault<V::Fault>>
    ensures { ReadOnly V.Edges view.old view.new
        (IsRowOf (V.state view.old) row.now → IfOk result (λ a. a
        ≡ answer_planned (V.state view.old) row.now.batch
        (job_at (V.state view.old) row.now.batch.job))) }
{
    let Some(job) = lookup::job(view, row.batch.job)? else {
        return Ok(Answer::Unknown(Refusal::UnknownOrder));
    };
    headed_answer(alloc, view, row, job)
}

fn headed_answer<V: View>(
    alloc: Global,
    view: &mut V,
    row: &BatchRow,
    job: Job,
) -> Result<Answer, ViewFault<V::Fault>>
    ensures { ReadOnly V.Edges view.old view.new
        (IsRowOf (V.state view.old) row.now → IfOk result (λ a. a
        ≡ answer_headed (V.state view.old) row.now.batch job
        (recipe_at (V.state view.old) job.order.recipe job.order.version))) }
{
    let order = job.order;
    let Some(recipe) = lookup::recipe(view, order.recipe, order.version)? else {
        return Ok(Answer::Unknown(Refusal::UnknownRecipe));
    };
    let found = batch_view(alloc, view, row, job, recipe.header)?;
    Ok(Answer::Batch(found))
}

fn batch_view<V: View>(
    alloc: Global,
    view: &mut V,
    row: &BatchRow,
    job: Job,
    header: Header,
) -> Result<BatchView, ViewFault<V::Fault>>
    ensures { ReadOnly V.Edges view.old view.new
        (IsRowOf (V.state view.old) row.now
        → IfOk result (λ v. v ≡ batch_view (V.state view.old) row.now.batch job header)) }
{
    let found = found_batch(alloc, view, row.batch.id)?;
    Ok(view_of(row, job, header, found))
}

// What the other tables have of a batch.
#[derive(Drop)]
struct FoundBatch {
    lines: Vec<MeasuredLine>,
    events: Vec<BatchEvent>,
    bookings: BatchBookings,
}

fn found_batch<V: View>(
    alloc: Global,
    view: &mut V,
    batch: Id,
) -> Result<FoundBatch, ViewFault<V::Fault>>
    ensures { ReadOnly V.Edges view.old view.new (IfOk result (IsFoundOf (V.state view.old) batch)) }
{
    let lines = measured_lines(alloc, view, batch)?;
    let events = lookup::events(view, batch)?;
    let bookings = bookings_of(alloc, view, batch)?;
    Ok(FoundBatch {
        lines,
        events,
        bookings,
    })
}

fn view_of(row: &BatchRow, job: Job, header: Header, found: FoundBatch) -> BatchView
    ensures { (s : State) → IsRowOf s row.now → IsFoundOf s row.now.batch.id found
        → result ≡ batch_view s row.now.batch job header }
{
    BatchView {
        job,
        header,
        batch: row.batch,
        progress: progress_in(row),
        lines: Items::new(found.lines),
        events: Items::new(found.events),
        consumed: Items::new(found.bookings.consumed),
        produced: Items::new(found.bookings.produced),
    }
}

// The progress in the row of a batch.
fn progress_in(row: &BatchRow) -> Progress
    ensures { (s : State) → IsRowOf s row.now → result ≡ progress_at s row.now.batch.id }
{
    Progress {
        state: row.state,
        attempt: row.attempt,
        next: row.next,
        closed: row.closed,
    }
}

// ---- lines

// The lines of the control recipe of a batch, by number, each with its unit.
pub(crate) fn measured_lines<V: View>(
    alloc: Global,
    view: &mut V,
    batch: Id,
) -> Result<Vec<MeasuredLine>, ViewFault<V::Fault>>
    ensures { ReadOnly V.Edges view.old view.new
        (IfOk result (λ v. v.items ≡ map (measured_line (V.state view.old).definitions)
        (control_lines_of (V.state view.old) batch))) }
{
    let lines = lookup::control_lines(view, batch)?;
    lines_with_units(alloc, view, lines.as_slice())
}

// These lines, each with its unit.
fn lines_with_units<V: View>(
    alloc: Global,
    view: &mut V,
    lines: &[ControlLine],
) -> Result<Vec<MeasuredLine>, ViewFault<V::Fault>>
    ensures { ReadOnly V.Edges view.old view.new
        (IfOk result (λ v. v.items ≡ map (measured_line (V.state view.old).definitions) lines.now)) }
{
    let mut rows = Vec::new(alloc);
    for line in lines {
        let row = measured_line(view, line)?;
        if rows.push(row).is_err() {
            return Err(ViewFault::Memory);
        }
    }
    Ok(rows)
}

fn measured_line<V: View>(
    view: &mut V,
    line: &ControlLine,
) -> Result<MeasuredLine, ViewFault<V::Fault>>
    ensures { ReadOnly V.Edges view.old view.new
        (IfOk result (λ row. row ≡ measured_line (V.state view.old).definitions line.now)) }
{
    let unit = unit_among(view, material_of(line.line))?;
    Ok(MeasuredLine { line: *line, unit })
}
