//! Batches and their control recipes.

ghost use Rattle.std.specs.Prelude.{◌≡◌, IfOk, ◌==◌, map};
ghost use Rattle.plant_view.specs.{lines_among};
ghost use Rattle.plant_requirements.specs.Batches.{control_sized, control_if_well_formed};
ghost use Rattle.plant_requirements.specs.Batches.{control_of_found, control_asked_for, is_control};
ghost use Rattle.plant_requirements.specs.Batches.{batch_fault, batch_fault_in, control_line_fault};
ghost use Rattle.plant_requirements.specs.First.{first_reported};

use crate::fault::{Column, Found, RowFault, Wanted};
use crate::first::{RowRule, as_a_whole, first_fault, first_of, in_column, names_none};
use crate::keys::{control_line_key, id_key};
use crate::numbered::are_numbered;
use crate::plan_keys::{
    Batches, BatchesOfOrders, ControlLines, Orders, RecipeLines, Recipes, control_of, has_batch,
    has_one_batch, job_at, lines_of, recipe_at,
};
use crate::table_names::Table;
use grouped_rows::Grouped;
use plant_base::{
    Amount, BatchRow, ControlLine, Header, Items, Job, MasterLine, Recipe, RecipeLine,
};
use plant_recipe::{Master, RecipeFault, control, is_size_of};
use plant_view::lines_in;
use std::alloc::{AllocError, Global};

/// What the control recipes of batches come from.
#[derive(Drop)]
struct Plans<'a> {
    /// The recipes by id and version.
    recipes: Grouped<'a, Recipes>,
    /// The lines of master recipes by recipe and version.
    lines: Grouped<'a, RecipeLines>,
    /// The orders by id.
    jobs: Grouped<'a, Orders>,
}

impl<'a> Plans<'a> {
    /// Groups the recipes, their lines and the orders by their keys. The only error is that memory was refused.
    fn new(
        alloc: Global,
        recipes: &'a [Recipe],
        rows: &'a [MasterLine],
        jobs: &'a [Job],
    ) -> Result<Self, AllocError>
        ensures { IfOk result (λ p. (p.recipes.rows.now ≡ recipes.now)
            × (p.lines.rows.now ≡ rows.now) × (p.jobs.rows.now ≡ jobs.now)) }
    {
        let recipes = Grouped::<Recipes>::new(alloc, recipes)?;
        let lines = Grouped::<RecipeLines>::new(alloc, rows)?;
        let jobs = Grouped::<Orders>::new(alloc, jobs)?;
        Ok(Plans {
            recipes,
            lines,
            jobs,
        })
    }

    /// The control recipe that an order asks for, where it and its recipe are there and it comes to one. The only error is that
    /// memory was refused.
    fn control_asked_for(
        &self,
        alloc: Global,
        job: Option<Job>,
    ) -> Result<Option<Items<RecipeLine>>, AllocError>
        ensures { IfOk result
            (λ c. c ≡ control_asked_for self.now.recipes.rows.now self.now.lines.rows.now job) }
    {
        match job {
            None => Ok(None),
            Some(job) => {
                let order = job.order;
                let recipe = recipe_at(&self.recipes, order.recipe, order.version);
                self.control_of_found(alloc, order.size, recipe)
            }
        }
    }

    fn control_of_found(
        &self,
        alloc: Global,
        size: Amount,
        recipe: Option<Recipe>,
    ) -> Result<Option<Items<RecipeLine>>, AllocError>
        ensures { IfOk result (λ c. c ≡ control_of_found self.now.lines.rows.now size recipe) }
    {
        match recipe {
            None => Ok(None),
            Some(recipe) => {
                let header = recipe.header;
                let rows = lines_of(&self.lines, header.recipe, header.version);
                control_if_well_formed(alloc, header, lines_in(alloc, rows)?, size)
            }
        }
    }
}

// The control recipe of a well-formed recipe for one of its sizes.
fn control_if_well_formed(
    alloc: Global,
    header: Header,
    lines: Vec<RecipeLine>,
    size: Amount,
) -> Result<Option<Items<RecipeLine>>, AllocError>
    ensures { IfOk result (λ c. c ≡ control_if_well_formed header lines.items size) }
{
    match Master::check(header, lines) {
        Err(_) => Ok(None),
        Ok(master) => control_of_master(alloc, &master, size),
    }
}

fn control_of_master(
    alloc: Global,
    master: &Master,
    size: Amount,
) -> Result<Option<Items<RecipeLine>>, AllocError>
    ensures { IfOk result (λ c. c ≡ control_sized master.now.header master.now.lines size) }
{
    if !is_size_of(&master.header(), size) {
        return Ok(None);
    }
    match control(alloc, master, size) {
        Ok(lines) => Ok(Some(lines)),
        Err(RecipeFault::Nothing) => Ok(None),
        Err(RecipeFault::Memory) => Err(AllocError),
    }
}

/// The lines of the rows. The only error is that memory was refused.
fn lines_among(alloc: Global, rows: &[ControlLine]) -> Result<Vec<RecipeLine>, AllocError>
    ensures { IfOk result (λ lines. lines.items ≡ map (λ r. r.line) rows.now) }
{
    rows.iter().map(|r| r.line).collect(alloc)
}

/// Whether the lines are those of the control recipe that is wanted.
fn is_control(wanted: &Option<Items<RecipeLine>>, lines: &[RecipeLine]) -> bool
    ensures { result ≡ is_control wanted.now lines.now }
{
    match wanted {
        None => false,
        Some(control) => control.as_slice() == lines,
    }
}

/// That a batch is the only one of its order, and that its lines are the control recipe that this asks for.
#[derive(Drop)]
struct Released<'a> {
    plans: Plans<'a>,
    batches: Grouped<'a, BatchesOfOrders>,
    controls: Grouped<'a, ControlLines>,
}

impl<'a> RowRule<BatchRow> for Released<'a> {
    ghost use Rattle.plant_requirements.specs.Batches.{batch_fault};

    ghost fault_of = { λ t b. batch_fault t.plans.recipes.rows.now t.plans.lines.rows.now
        t.plans.jobs.rows.now t.batches.rows.now t.controls.rows.now b };

    fn fault(&self, alloc: Global, row: &BatchRow) -> Result<Option<RowFault>, AllocError> {
        let (id, order) = (row.batch.id, row.batch.job);
        let place = (Table::Batch, id_key(id));
        if !has_one_batch(&self.batches, order) {
            let fault = in_column(place, Column::Job, Found::Id(order), Wanted::OneBatch);
            return Ok(Some(fault));
        }
        let lines = control_of(&self.controls, id);
        if !are_numbered(1, lines) {
            let numbering = Wanted::NumberedFrom(Table::ControlLine, 1);
            return Ok(Some(as_a_whole(place, numbering)));
        }
        let job = job_at(&self.plans.jobs, order);
        let wanted = self.plans.control_asked_for(alloc, job)?;
        if is_control(&wanted, lines_among(alloc, lines)?.as_slice()) {
            return Ok(None);
        }
        Ok(Some(as_a_whole(place, Wanted::Control)))
    }
}

fn control_line_fault(batches: &Grouped<Batches>, line: &ControlLine) -> Option<RowFault>
    ensures { result ≡ control_line_fault batches.now.rows.now line.now }
{
    if has_batch(batches, line.batch) {
        return None;
    }
    let place = (Table::ControlLine, control_line_key(line));
    Some(names_none(place, Column::Batch, line.batch, Table::Batch))
}

fn wrong_batch(
    alloc: Global,
    recipes: &[Recipe],
    lines: &[MasterLine],
    jobs: &[Job],
    batches: &[BatchRow],
    control: &[ControlLine],
) -> Result<Option<RowFault>, AllocError>
    ensures { IfOk result (λ reported. reported ≡ first_reported
        (batch_fault recipes.now lines.now jobs.now batches.now control.now) batches.now) }
{
    let released = Released {
        plans: Plans::new(alloc, recipes, lines, jobs)?,
        batches: Grouped::<BatchesOfOrders>::new(alloc, batches)?,
        controls: Grouped::<ControlLines>::new(alloc, control)?,
    };
    first_fault(alloc, &released, batches)
}

/// The first batch that breaks its rule, or else the first line of a control recipe without its batch. The only error is that
/// memory was refused.
pub fn batch_fault_in(
    alloc: Global,
    recipes: &[Recipe],
    lines: &[MasterLine],
    jobs: &[Job],
    batches: &[BatchRow],
    control: &[ControlLine],
) -> Result<Option<RowFault>, AllocError>
    ensures { IfOk result
        (λ reported. reported ≡ batch_fault_in recipes.now lines.now jobs.now batches.now control.now) }
{
    let wrong = wrong_batch(alloc, recipes, lines, jobs, batches, control)?;
    if let Some(fault) = wrong {
        return Ok(Some(fault));
    }
    let batches = Grouped::<Batches>::new(alloc, batches)?;
    Ok(first_of(control, |line| control_line_fault(&batches, line)))
}
