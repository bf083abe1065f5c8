//! What rows are looked up by.

ghost use Rattle.std.specs.Prelude.{◌≡◌, ◌==◌, Some, filter, length};
ghost use Rattle.plant_base.specs.{same};
ghost use Rattle.plant_view.specs.{is_defined, rows_among, control_among, job_among};
ghost use Rattle.plant_requirements.specs.Catalogue.{is_class_among};
ghost use Rattle.plant_requirements.specs.Recipes.{is_recipe_among};
ghost use Rattle.plant_requirements.specs.Orders.{recipe_among, row_of_order};
ghost use Rattle.plant_requirements.specs.Batches.{is_row_among};

use grouped_rows::{Grouped, Grouping};
use plant_base::{
    BatchEvent, BatchRow, Class, ControlLine, Definition, Id, Job, MasterLine, Recipe,
};

/// Classes by their id.
pub struct Classes;

impl Grouping for Classes {
    type Row = Class;

    type Key = Id;

    ghost key_of = { λ c. Some c.id };

    fn key(row: &Class) -> Option<Id> {
        Some(row.id)
    }
}

/// Definitions by their id.
pub struct Definitions;

impl Grouping for Definitions {
    type Row = Definition;

    type Key = Id;

    ghost key_of = { λ d. Some d.id };

    fn key(row: &Definition) -> Option<Id> {
        Some(row.id)
    }
}

/// Recipes by their id and version.
pub struct Recipes;

impl Grouping for Recipes {
    type Row = Recipe;

    type Key = (Id, u16);

    ghost key_of = { λ r. Some (r.header.recipe, r.header.version) };

    fn key(row: &Recipe) -> Option<(Id, u16)> {
        Some((row.header.recipe, row.header.version))
    }
}

/// Lines of recipes by the id and version of their recipe.
pub struct RecipeLines;

impl Grouping for RecipeLines {
    type Row = MasterLine;

    type Key = (Id, u16);

    ghost key_of = { λ l. Some (l.recipe, l.version) };

    fn key(row: &MasterLine) -> Option<(Id, u16)> {
        Some((row.recipe, row.version))
    }
}

/// Orders by their id.
pub struct Orders;

impl Grouping for Orders {
    type Row = Job;

    type Key = Id;

    ghost key_of = { λ j. Some j.order.order };

    fn key(row: &Job) -> Option<Id> {
        Some(row.order.order)
    }
}

/// Batches by their id.
pub struct Batches;

impl Grouping for Batches {
    type Row = BatchRow;

    type Key = Id;

    ghost key_of = { λ b. Some b.batch.id };

    fn key(row: &BatchRow) -> Option<Id> {
        Some(row.batch.id)
    }
}

/// Batches by their order.
pub struct BatchesOfOrders;

impl Grouping for BatchesOfOrders {
    type Row = BatchRow;

    type Key = Id;

    ghost key_of = { λ b. Some b.batch.job };

    fn key(row: &BatchRow) -> Option<Id> {
        Some(row.batch.job)
    }
}

/// Lines of control recipes by their batch.
pub struct ControlLines;

impl Grouping for ControlLines {
    type Row = ControlLine;

    type Key = Id;

    ghost key_of = { λ l. Some l.batch };

    fn key(row: &ControlLine) -> Option<Id> {
        Some(row.batch)
    }
}

/// Events by their batch.
pub struct Events;

impl Grouping for Events {
    type Row = BatchEvent;

    type Key = Id;

    ghost key_of = { λ e. Some e.batch };

    fn key(row: &BatchEvent) -> Option<Id> {
        Some(row.batch)
    }
}

/// Whether a class has the id.
pub fn has_class(classes: &Grouped<Classes>, id: Id) -> bool
    ensures { result ≡ is_class_among classes.now.rows.now id }
{
    classes.has(id)
}

/// Whether a definition has the id.
pub fn has_definition(definitions: &Grouped<Definitions>, id: Id) -> bool
    ensures { result ≡ is_defined definitions.now.rows.now id }
{
    definitions.has(id)
}

/// Whether a recipe has the id in this version.
pub fn has_recipe(recipes: &Grouped<Recipes>, id: Id, version: u16) -> bool
    ensures { result ≡ is_recipe_among recipes.now.rows.now id version }
{
    recipes.has((id, version))
}

/// The lines of the recipe in this version, in the order of the rows; none where there is no such recipe.
pub fn lines_of<'a>(lines: &'a Grouped<RecipeLines>, id: Id, version: u16) -> &'a [MasterLine]
    ensures { result.now ≡ rows_among lines.now.rows.now id version }
{
    lines.at((id, version))
}

/// The first recipe with the id in this version, or `None`.
pub fn recipe_at(recipes: &Grouped<Recipes>, id: Id, version: u16) -> Option<Recipe>
    ensures { result ≡ recipe_among recipes.now.rows.now id version }
{
    recipes.first((id, version))
}

/// The first order with the id, or `None`.
pub fn job_at(jobs: &Grouped<Orders>, id: Id) -> Option<Job>
    ensures { result ≡ job_among jobs.now.rows.now id }
{
    jobs.first(id)
}

/// Whether a batch has the id.
pub fn has_batch(batches: &Grouped<Batches>, id: Id) -> bool
    ensures { result ≡ is_row_among batches.now.rows.now id }
{
    batches.has(id)
}

/// The first batch of the order, or `None`.
pub fn batch_of(batches: &Grouped<BatchesOfOrders>, order: Id) -> Option<BatchRow>
    ensures { result ≡ row_of_order batches.now.rows.now order }
{
    batches.first(order)
}

/// Whether the order has just one batch.
pub fn has_one_batch(batches: &Grouped<BatchesOfOrders>, order: Id) -> bool
    ensures { result ≡ (length (filter (λ b. same b.batch.job order) batches.now.rows.now) == 1) }
{
    batches.at(order).len() == 1
}

/// The lines of the batch's control recipe, in the order of the rows; none where there is no such batch.
pub fn control_of<'a>(lines: &'a Grouped<ControlLines>, batch: Id) -> &'a [ControlLine]
    ensures { result.now ≡ control_among lines.now.rows.now batch }
{
    lines.at(batch)
}

/// The events of the batch, in the order of the rows.
pub fn events_of<'a>(events: &'a Grouped<Events>, batch: Id) -> &'a [BatchEvent]
    ensures { result.now ≡ filter (λ e. same e.batch batch) events.now.rows.now }
{
    events.at(batch)
}
