// What is answered of the batches that are closed, and of those that aren't.
ghost use Rattle.std.specs.Prelude.{◌≡◌, IfOk, map, Some, slice_get, length, ◌-◌};
ghost use Rattle.std.specs.List.{filter_map};
ghost use Rattle.plant_base.specs.{job_at, recipe_at};
ghost use Rattle.plant_trace.specs.ReadOnly.{ReadOnly};
ghost use Rattle.plant_view.specs.{events_of};
ghost use Rattle.plant_questions.specs.{page_of, batches_in};
ghost use Rattle.plant_answers_pages.specs.OpenBatches.{batch_page, last_moment, open_batch, opened};
ghost use Rattle.plant_answers_pages.specs.OpenBatches.{phase_of, phases_of, planned_by, planned_of, planned_of_recipe};

use crate::recipe_answers::unit_among;
use plant_base::{
    Batch, BatchEvent, BatchRow, ControlLine, Header, Id, Items, Moment, OrderRow, RecipeLine,
};
use plant_questions::{NextPhase, OpenBatch, Page, PlannedBatch, Worklists};
use plant_view::{View, ViewFault, lookup};
use std::alloc::{AllocError, Global};

/// A page of the batches that are closed, or of those that aren't, each with what it is to make and the phase that is next.
pub fn batch_page<V: Worklists>(
    alloc: Global,
    view: &mut V,
    closed: bool,
    cursor: Option<Id>,
) -> Result<Page<OpenBatch>, ViewFault<V::Fault>>
    ensures { ReadOnly V.Edges view.old view.new
        (IfOk result (λ page. page ≡ batch_page (V.state view.old) (page_of (batches_in (V.state view.old) closed cursor)))) }
{
    let page = view.batches_in(closed, cursor).map_err(ViewFault::View)?;
    let rows = with_phases(alloc, view, page.rows.as_slice())?;
    Ok(Page {
        rows: Items::new(rows),
        has_more: page.has_more,
    })
}

fn with_phases<V: View>(
    alloc: Global,
    view: &mut V,
    batches: &[BatchRow],
) -> Result<Vec<OpenBatch>, ViewFault<V::Fault>>
    ensures { ReadOnly V.Edges view.old view.new
        (IfOk result (λ v. v.items ≡ map (open_batch (V.state view.old)) batches.now)) }
{
    let mut rows = Vec::new(alloc);
    for batch in batches {
        let row = open_batch(alloc, view, batch)?;
        if rows.push(row).is_err() {
            return Err(ViewFault::Memory);
        }
    }
    Ok(rows)
}

fn open_batch<V: View>(
    alloc: Global,
    view: &mut V,
    batch: &BatchRow,
) -> Result<OpenBatch, ViewFault<V::Fault>>
    ensures { ReadOnly V.Edges view.old view.new
        (IfOk result (λ row. row ≡ open_batch (V.state view.old) batch.now)) }
{
    let planned = planned_of(view, batch.batch.job)?;
    let phases = phases_of(alloc, view, batch.batch.id)?;
    let last = last_moment_of(view, &batch.batch)?;
    Ok(opened(batch, planned, phases.as_slice(), last))
}

fn opened(
    row: &BatchRow,
    planned: Option<PlannedBatch>,
    phases: &[NextPhase],
    last: Moment,
) -> OpenBatch
    ensures { result ≡ opened row.now planned phases.now last }
{
    let done = usize::from(row.next).saturating_sub(1);
    OpenBatch {
        row: *row,
        planned,
        phases: phases.len(),
        next_phase: phases.get(done).copied(),
        last,
    }
}

// ---- what is to be made

// What the batch of an order is to make.
fn planned_of<V: View>(view: &mut V, order: Id) -> Result<Option<PlannedBatch>, ViewFault<V::Fault>>
    ensures { ReadOnly V.Edges view.old view.new
        (IfOk result (λ planned. planned ≡ planned_of (V.state view.old) (job_at (V.state view.old) order))) }
{
    let Some(job) = lookup::job(view, order)? else {
        return Ok(None);
    };
    planned_of_order(view, job.order)
}

fn planned_of_order<V: View>(
    view: &mut V,
    order: OrderRow,
) -> Result<Option<PlannedBatch>, ViewFault<V::Fault>>
    ensures { ReadOnly V.Edges view.old view.new
        (IfOk result (λ planned. planned ≡ planned_of_recipe (V.state view.old) order
        (recipe_at (V.state view.old) order.recipe order.version))) }
{
    let Some(recipe) = lookup::recipe(view, order.recipe, order.version)? else {
        return Ok(None);
    };
    let planned = planned_by(view, order, recipe.header)?;
    Ok(Some(planned))
}

fn planned_by<V: View>(
    view: &mut V,
    order: OrderRow,
    header: Header,
) -> Result<PlannedBatch, ViewFault<V::Fault>>
    ensures { ReadOnly V.Edges view.old view.new
        (IfOk result (λ planned. planned ≡ planned_by (V.state view.old) order header)) }
{
    let unit = unit_among(view, Some(header.product))?;
    Ok(PlannedBatch {
        order,
        header,
        unit,
    })
}

// ---- what is next

// The phases of the control recipe of a batch, in their order.
fn phases_of<V: View>(
    alloc: Global,
    view: &mut V,
    batch: Id,
) -> Result<Vec<NextPhase>, ViewFault<V::Fault>>
    ensures { ReadOnly V.Edges view.old view.new
        (IfOk result (λ v. v.items ≡ phases_of (V.state view.old) batch)) }
{
    let lines = lookup::control_lines(view, batch)?;
    match phases_among(alloc, lines.as_slice()) {
        Ok(phases) => Ok(phases),
        Err(_) => Err(ViewFault::Memory),
    }
}

// The phases among the lines, in their order.
fn phases_among(alloc: Global, lines: &[ControlLine]) -> Result<Vec<NextPhase>, AllocError>
    ensures { IfOk result (λ v. v.items ≡ filter_map (λ l. phase_of l.line) lines.now) }
{
    lines.iter().filter_map(|l| phase_of(l.line)).collect(alloc)
}

fn phase_of(line: RecipeLine) -> Option<NextPhase>
    ensures { result ≡ phase_of line }
{
    match line {
        RecipeLine::In { .. } | RecipeLine::Out { .. } | RecipeLine::Parameter { .. } => None,
        RecipeLine::Phase {
            unit_procedure,
            phase,
            ..
        } => Some(NextPhase {
            phase,
            unit_procedure,
        }),
    }
}

// ---- when something happened

// The moment of the last event of a batch, that of its release where there is none.
fn last_moment_of<V: View>(view: &mut V, batch: &Batch) -> Result<Moment, ViewFault<V::Fault>>
    ensures { ReadOnly V.Edges view.old view.new
        (IfOk result (λ at. at ≡ last_moment batch.now (events_of (V.state view.old) batch.now.id))) }
{
    let events = lookup::events(view, batch.id)?;
    Ok(last_moment(batch, events.as_slice()))
}

fn last_moment(batch: &Batch, events: &[BatchEvent]) -> Moment
    ensures { result ≡ last_moment batch.now events.now }
{
    match events.last() {
        Some(event) => event.at,
        None => batch.at,
    }
}
