//! Orders.

ghost use Rattle.std.specs.Prelude.{◌≡◌, IfOk};
ghost use Rattle.plant_requirements.specs.Orders.{batch_wanted, is_closed, is_left_open};
ghost use Rattle.plant_requirements.specs.Orders.{is_started, order_fault, order_fault_in};

use crate::fault::{Column, Found, RowFault, Wanted};
use crate::first::{first_of, in_column, names_none};
use crate::keys::id_key;
use crate::plan_keys::{BatchesOfOrders, Recipes, batch_of, recipe_at};
use crate::table_names::Table;
use grouped_rows::Grouped;
use plant_base::{BatchRow, Job, JobState, Recipe};
use plant_recipe::is_size_of;
use std::alloc::{AllocError, Global};

/// Whether an order in this state has such a batch: an open one where it was released, a closed one where it is finished, and
/// else none.
fn is_started(state: JobState, batch: Option<BatchRow>) -> bool
    ensures { result ≡ is_started state batch }
{
    match state {
        JobState::Open | JobState::Cancelled => batch.is_none(),
        JobState::Released => is_left_open(batch),
        JobState::Finished => is_closed(batch),
    }
}

fn is_left_open(batch: Option<BatchRow>) -> bool
    ensures { result ≡ is_left_open batch }
{
    match batch {
        None => false,
        Some(batch) => !batch.closed,
    }
}

fn is_closed(batch: Option<BatchRow>) -> bool
    ensures { result ≡ is_closed batch }
{
    match batch {
        None => false,
        Some(batch) => batch.closed,
    }
}

/// The batch that an order in this state has.
fn batch_wanted(state: JobState) -> Wanted
    ensures { result ≡ batch_wanted state }
{
    match state {
        JobState::Open | JobState::Cancelled => Wanted::NoBatch,
        JobState::Released => Wanted::OpenBatch,
        JobState::Finished => Wanted::ClosedBatch,
    }
}

/// What is wrong with an order: its recipe isn't there, or hasn't its size, or it has another batch than its state says.
fn order_fault(
    recipes: &Grouped<Recipes>,
    batches: &Grouped<BatchesOfOrders>,
    job: &Job,
) -> Option<RowFault>
    ensures { result ≡ order_fault recipes.now.rows.now batches.now.rows.now job.now }
{
    let (order, place) = (job.order, (Table::Job, id_key(job.order.order)));
    let Some(recipe) = recipe_at(recipes, order.recipe, order.version) else {
        return Some(names_none(place, Column::Recipe, order.recipe, Table::Recipe));
    };
    let header = recipe.header;
    if !is_size_of(&header, order.size) {
        let (least, greatest) = (header.least, header.greatest);
        let (found, wanted) = (
            Found::Number(order.size.get()),
            Wanted::Size { least, greatest },
        );
        return Some(in_column(place, Column::Size, found, wanted));
    }
    if !is_started(job.state, batch_of(batches, order.order)) {
        let (found, wanted) = (Found::Order(job.state), batch_wanted(job.state));
        return Some(in_column(place, Column::State, found, wanted));
    }
    None
}

/// The first order that breaks its rule. The only error is that memory was refused.
pub fn order_fault_in(
    alloc: Global,
    recipes: &[Recipe],
    batches: &[BatchRow],
    jobs: &[Job],
) -> Result<Option<RowFault>, AllocError>
    ensures { IfOk result (λ reported. reported ≡ order_fault_in recipes.now batches.now jobs.now) }
{
    let recipes = Grouped::<Recipes>::new(alloc, recipes)?;
    let batches = Grouped::<BatchesOfOrders>::new(alloc, batches)?;
    Ok(first_of(jobs, |job| order_fault(&recipes, &batches, job)))
}
