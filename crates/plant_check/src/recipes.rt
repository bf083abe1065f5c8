//! Recipes and their lines that break a rule.
ghost use Rattle.std.specs.Prelude.{◌≡◌, IfOk};
ghost use Rattle.plant_check.specs.Recipes.{definition_found, ill_formed_fault, line_fault};
ghost use Rattle.plant_check.specs.Recipes.{recipe_fault, recipe_fault_in, stray_line_fault};
ghost use Rattle.plant_requirements.specs.{first_reported};

use grouped_rows::Grouped;
use plant_base::{Header, MasterLine, Recipe, RecipeLine};
use plant_recipe::is_well_formed;
use plant_requirements::first::{RowRule, as_a_whole, first_fault, in_column, names_none};
use plant_requirements::keys::{recipe_key, recipe_line_key};
use plant_requirements::numbered::are_numbered;
use plant_requirements::plan_keys::{
    Definitions, RecipeLines, Recipes, has_definition, has_recipe, lines_of,
};
use plant_requirements::recipes::is_known;
use plant_requirements::{Column, Found, RowFault, Table, Wanted};
use plant_tables::DeskRows;
use plant_view::lines_in;
use std::alloc::{AllocError, Global};

/// The definition that a line names, where it names one.
fn definition_found(line: &RecipeLine) -> Found
    ensures { result ≡ definition_found line.now }
{
    match line {
        RecipeLine::In { def, .. } | RecipeLine::Out { def, .. } => Found::Id(*def),
        RecipeLine::Parameter { .. } | RecipeLine::Phase { .. } => Found::Row,
    }
}

/// That the definition that a line names is there.
#[derive(Drop)]
struct Known<'a> {
    definitions: Grouped<'a, Definitions>,
}

impl<'a> RowRule<MasterLine> for Known<'a> {
    ghost fault_of = { λ t l. line_fault t.definitions.rows.now l };

    fn fault(&self, _alloc: Global, row: &MasterLine) -> Result<Option<RowFault>, AllocError> {
        if is_known(&self.definitions, &row.line) {
            return Ok(None);
        }
        let place = (Table::RecipeLine, recipe_line_key(row));
        let (found, wanted) = (definition_found(&row.line), Wanted::Key(Table::Definition));
        Ok(Some(in_column(place, Column::Def, found, wanted)))
    }
}

/// The recipe with these rows of lines, which are this list of lines, where it isn't well formed, they aren't numbered from 1
/// on, or what it names isn't there. The only error is that memory was refused.
fn ill_formed_fault(
    alloc: Global,
    known: &Known,
    header: &Header,
    rows: &[MasterLine],
    lines: &[RecipeLine],
) -> Result<Option<RowFault>, AllocError>
    ensures { IfOk result (λ reported. reported ≡ ill_formed_fault known.now.definitions.rows.now header.now rows.now lines.now) }
{
    let place = (Table::Recipe, recipe_key(header));
    let product = header.product;
    if !is_well_formed(header, lines) {
        return Ok(Some(as_a_whole(place, Wanted::WellFormed)));
    }
    if !are_numbered(1, rows) {
        let numbering = Wanted::NumberedFrom(Table::RecipeLine, 1);
        return Ok(Some(as_a_whole(place, numbering)));
    }
    if !has_definition(&known.definitions, product) {
        return Ok(Some(names_none(place, Column::Product, product, Table::Definition)));
    }
    first_fault(alloc, known, rows)
}

/// That a recipe is whole.
#[derive(Drop)]
struct Whole<'a> {
    known: Known<'a>,
    lines: Grouped<'a, RecipeLines>,
}

impl<'a> RowRule<Recipe> for Whole<'a> {
    ghost fault_of = { λ t r. recipe_fault t.known.definitions.rows.now t.lines.rows.now r };

    fn fault(&self, alloc: Global, row: &Recipe) -> Result<Option<RowFault>, AllocError> {
        let header = row.header;
        let rows = lines_of(&self.lines, header.recipe, header.version);
        let lines = lines_in(alloc, rows)?;
        ill_formed_fault(alloc, &self.known, &header, rows, lines.as_slice())
    }
}

/// That the recipe of a line is there.
#[derive(Drop)]
struct OfRecipes<'a> {
    recipes: Grouped<'a, Recipes>,
}

impl<'a> RowRule<MasterLine> for OfRecipes<'a> {
    ghost fault_of = { λ t l. stray_line_fault t.recipes.rows.now l };

    fn fault(&self, _alloc: Global, row: &MasterLine) -> Result<Option<RowFault>, AllocError> {
        if has_recipe(&self.recipes, row.recipe, row.version) {
            return Ok(None);
        }
        let place = (Table::RecipeLine, recipe_line_key(row));
        Ok(Some(names_none(place, Column::Recipe, row.recipe, Table::Recipe)))
    }
}

fn broken_recipe(alloc: Global, rows: &DeskRows) -> Result<Option<RowFault>, AllocError>
    ensures { IfOk result (λ reported. reported ≡ first_reported
        (recipe_fault rows.now.definitions.items rows.now.master_lines.items) rows.now.recipes.items) }
{
    let definitions = Grouped::<Definitions>::new(alloc, rows.definitions.as_slice())?;
    let lines = Grouped::<RecipeLines>::new(alloc, rows.master_lines.as_slice())?;
    let known = Known { definitions };
    let whole = Whole { known, lines };
    first_fault(alloc, &whole, rows.recipes.as_slice())
}

/// The first recipe that isn't whole, or else the first line without its recipe. The only error is that memory was refused.
pub(crate) fn recipe_fault(alloc: Global, rows: &DeskRows) -> Result<Option<RowFault>, AllocError>
    ensures { IfOk result (λ reported. reported ≡ recipe_fault_in
        rows.now.definitions.items rows.now.recipes.items rows.now.master_lines.items) }
{
    let broken = broken_recipe(alloc, rows)?;
    if let Some(fault) = broken {
        return Ok(Some(fault));
    }
    let recipes = Grouped::<Recipes>::new(alloc, rows.recipes.as_slice())?;
    first_fault(alloc, &OfRecipes { recipes }, rows.master_lines.as_slice())
}
