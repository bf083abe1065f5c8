//! Batches and events that break a rule.
ghost use Rattle.std.specs.Prelude.{◌≡◌, IfOk, Result};
ghost use Rattle.plant_check.specs.Events.{batch_as, closed_number, differ, event_fault};
ghost use Rattle.plant_check.specs.Events.{event_fault_in, number_as, progress_fault};
ghost use Rattle.plant_check.specs.Events.{run_fault, run_found};
ghost use Rattle.plant_requirements.specs.{first_reported};

use grouped_rows::Grouped;
use plant_base::{BatchEvent, BatchRow, Refusal};
use plant_recipe::Progress;
use plant_requirements::events::{events_in, kept_progress, phases_of};
use plant_requirements::first::{RowRule, first_fault, in_column, names_none};
use plant_requirements::keys::{id_key, number_key};
use plant_requirements::plan_keys::{Batches, ControlLines, Events, events_of, has_batch};
use plant_requirements::{Column, Found, RowFault, Table, Wanted};
use plant_tables::DeskRows;
use std::alloc::{AllocError, Global};

/// The fault of the batch: this is in a column, where that is wanted.
fn batch_as(batch: &BatchRow, column: Column, found: Found, wanted: Wanted) -> RowFault
    ensures { result ≡ batch_as batch.now column found wanted }
{
    let place = (Table::Batch, id_key(batch.batch.id));
    in_column(place, column, found, wanted)
}

fn differ(a: bool, b: bool) -> bool
    ensures { result ≡ differ a b }
{
    if a { !b } else { b }
}

/// How the file stores whether a batch is closed.
fn closed_number(closed: bool) -> u64
    ensures { result ≡ closed_number closed }
{
    if closed { 1 } else { 0 }
}

/// The batch, where a column has another number than its events lead to.
fn number_as(batch: &BatchRow, column: Column, found: u64, wanted: u64) -> RowFault
    ensures { result ≡ number_as batch.now column found wanted }
{
    batch_as(batch, column, Found::Number(found), Wanted::Number(wanted))
}

/// The first column, of attempt, next, closed and state, in which a batch has come elsewhere than its events lead to.
fn progress_fault(progress: &Progress, batch: &BatchRow) -> RowFault
    ensures { result ≡ progress_fault progress.now batch.now }
{
    if progress.attempt != batch.attempt {
        let (found, wanted) = (u64::from(batch.attempt), u64::from(progress.attempt));
        return number_as(batch, Column::Attempt, found, wanted);
    }
    if progress.next != batch.next {
        let (found, wanted) = (u64::from(batch.next), u64::from(progress.next));
        return number_as(batch, Column::Next, found, wanted);
    }
    if differ(progress.closed, batch.closed) {
        let found = closed_number(batch.closed);
        return number_as(batch, Column::Closed, found, closed_number(progress.closed));
    }
    let found = Found::State(batch.state);
    batch_as(batch, Column::State, found, Wanted::State(progress.state))
}

/// The batch, where one of its events was refused, or it has come elsewhere than they lead to.
fn run_found(run: Result<Progress, Refusal>, batch: &BatchRow) -> Option<RowFault>
    ensures { result ≡ run_found run batch.now }
{
    match run {
        Err(refusal) => {
            let (found, wanted) = (Found::State(batch.state), Wanted::Allowed(refusal));
            Some(batch_as(batch, Column::State, found, wanted))
        }
        Ok(progress) if progress == kept_progress(batch) => None,
        Ok(progress) => Some(progress_fault(&progress, batch)),
    }
}

/// That a batch has come as far as its events say, each of which was allowed.
#[derive(Drop)]
struct Runs<'a> {
    controls: Grouped<'a, ControlLines>,
    events: Grouped<'a, Events>,
}

impl<'a> RowRule<BatchRow> for Runs<'a> {
    ghost fault_of = { λ t b. run_fault t.controls.rows.now t.events.rows.now b };

    #[tactic(auto, using(plant_recipe::proofs::EventFold::run_capped))]
    fn fault(&self, alloc: Global, row: &BatchRow) -> Result<Option<RowFault>, AllocError> {
        let id = row.batch.id;
        let list = events_in(alloc, events_of(&self.events, id))?;
        let run = Progress::of_events(list.as_slice(), phases_of(&self.controls, id));
        Ok(run_found(run, row))
    }
}

/// That the batch of an event is there.
#[derive(Drop)]
struct OfBatches<'a> {
    batches: Grouped<'a, Batches>,
}

impl<'a> RowRule<BatchEvent> for OfBatches<'a> {
    ghost fault_of = { λ t e. event_fault t.batches.rows.now e };

    fn fault(&self, _alloc: Global, row: &BatchEvent) -> Result<Option<RowFault>, AllocError> {
        if has_batch(&self.batches, row.batch) {
            return Ok(None);
        }
        let place = (Table::BatchEvent, number_key(row.seq));
        Ok(Some(names_none(place, Column::Batch, row.batch, Table::Batch)))
    }
}

fn wrong_run(alloc: Global, rows: &DeskRows) -> Result<Option<RowFault>, AllocError>
    ensures { IfOk result (λ reported. reported ≡ first_reported
        (run_fault rows.now.control_lines.items rows.now.events.items) rows.now.batches.items) }
{
    let controls = Grouped::<ControlLines>::new(alloc, rows.control_lines.as_slice())?;
    let events = Grouped::<Events>::new(alloc, rows.events.as_slice())?;
    let runs = Runs { controls, events };
    first_fault(alloc, &runs, rows.batches.as_slice())
}

/// The first batch that hasn't come as far as its columns say, or else the first event without its batch. The only error is
/// that memory was refused.
pub(crate) fn event_fault(alloc: Global, rows: &DeskRows) -> Result<Option<RowFault>, AllocError>
    ensures { IfOk result (λ reported. reported
        ≡ event_fault_in rows.now.control_lines.items rows.now.events.items rows.now.batches.items) }
{
    let wrong = wrong_run(alloc, rows)?;
    if let Some(fault) = wrong {
        return Ok(Some(fault));
    }
    let batches = Grouped::<Batches>::new(alloc, rows.batches.as_slice())?;
    first_fault(alloc, &OfBatches { batches }, rows.events.as_slice())
}
