// What is answered of a definition, and of a version of a master recipe.
ghost use Rattle.std.specs.Prelude.{◌≡◌, IfOk, map};
ghost use Rattle.plant_base.specs.{definition_at, recipe_at, master_lines_of};
ghost use Rattle.plant_trace.specs.ReadOnly.{ReadOnly};
ghost use Rattle.plant_answers_pages.specs.RecipeAnswers.{answer_definition, answer_recipe};
ghost use Rattle.plant_answers_pages.specs.RecipeAnswers.{material_of, recipe_answer, recipe_line};
ghost use Rattle.plant_answers_pages.specs.RecipeAnswers.{unit_among};

use plant_base::{Definition, Id, Items, MasterLine, Recipe, RecipeLine, Refusal, Unit};
use plant_questions::{Answer, RecipeAnswer, RecipeLineAnswer};
use plant_view::{View, ViewFault, lookup};
use std::alloc::Global;

/// What is known of a definition.
pub fn definition_answer<V: View>(view: &mut V, def: Id) -> Result<Answer, ViewFault<V::Fault>>
    ensures { ReadOnly V.Edges view.old view.new
        (IfOk result (λ a. a ≡ answer_definition (definition_at (V.state view.old) def))) }
{
    let known = lookup::definition(view, def)?;
    Ok(answer_of_definition(known))
}

// The answer by what was found.
fn answer_of_definition(known: Option<Definition>) -> Answer
    ensures { result ≡ answer_definition known }
{
    match known {
        None => Answer::Unknown(Refusal::UnknownDefinition),
        Some(definition) => Answer::Definition(definition),
    }
}

/// A version of a master recipe with its lines.
pub fn recipe_answer<V: View>(
    alloc: Global,
    view: &mut V,
    id: Id,
    version: u16,
) -> Result<Answer, ViewFault<V::Fault>>
    ensures { ReadOnly V.Edges view.old view.new
        (IfOk result (λ a. a ≡ answer_recipe (V.state view.old)
        (recipe_at (V.state view.old) id version))) }
{
    let Some(recipe) = lookup::recipe(view, id, version)? else {
        return Ok(Answer::Unknown(Refusal::UnknownRecipe));
    };
    Ok(Answer::Recipe(found_recipe(alloc, view, recipe)?))
}

/// A version of a master recipe that is there, with its lines.
pub fn found_recipe<V: View>(
    alloc: Global,
    view: &mut V,
    recipe: Recipe,
) -> Result<RecipeAnswer, ViewFault<V::Fault>>
    ensures { ReadOnly V.Edges view.old view.new (IfOk result (λ a. a ≡ recipe_answer (V.state view.old) recipe)) }
{
    let header = recipe.header;
    let unit = unit_among(view, Some(header.product))?;
    let lines = recipe_lines(alloc, view, header.recipe, header.version)?;
    Ok(RecipeAnswer {
        recipe,
        unit,
        lines: Items::new(lines),
    })
}

// The lines of a recipe, by number, each with its unit.
fn recipe_lines<V: View>(
    alloc: Global,
    view: &mut V,
    recipe: Id,
    version: u16,
) -> Result<Vec<RecipeLineAnswer>, ViewFault<V::Fault>>
    ensures { ReadOnly V.Edges view.old view.new
        (IfOk result (λ v. v.items ≡ map (recipe_line (V.state view.old))
        (master_lines_of (V.state view.old) recipe version))) }
{
    let lines = lookup::master_lines(view, recipe, version)?;
    each_with_unit(alloc, view, lines.as_slice())
}

// These lines, each with its unit.
fn each_with_unit<V: View>(
    alloc: Global,
    view: &mut V,
    lines: &[MasterLine],
) -> Result<Vec<RecipeLineAnswer>, ViewFault<V::Fault>>
    ensures { ReadOnly V.Edges view.old view.new
        (IfOk result (λ v. v.items ≡ map (recipe_line (V.state view.old)) lines.now)) }
{
    let mut rows = Vec::new(alloc);
    for line in lines {
        let row = recipe_line(view, line)?;
        if rows.push(row).is_err() {
            return Err(ViewFault::Memory);
        }
    }
    Ok(rows)
}

fn recipe_line<V: View>(
    view: &mut V,
    line: &MasterLine,
) -> Result<RecipeLineAnswer, ViewFault<V::Fault>>
    ensures { ReadOnly V.Edges view.old view.new
        (IfOk result (λ row. row ≡ recipe_line (V.state view.old) line.now)) }
{
    let unit = unit_among(view, material_of(line.line))?;
    Ok(RecipeLineAnswer {
        line: line.line,
        unit,
    })
}

/// The unit of a definition that is named and is there.
pub fn unit_among<V: View>(
    view: &mut V,
    def: Option<Id>,
) -> Result<Option<Unit>, ViewFault<V::Fault>>
    ensures { ReadOnly V.Edges view.old view.new
        (IfOk result (λ unit. unit ≡ unit_among (V.state view.old).definitions def)) }
{
    match def {
        None => Ok(None),
        Some(def) => {
            let definition = lookup::definition(view, def)?;
            Ok(definition.map(|d| d.unit))
        }
    }
}

/// The definition that a line of a recipe names, if it is an input or an output.
pub fn material_of(line: RecipeLine) -> Option<Id>
    ensures { result ≡ material_of line }
{
    match line {
        RecipeLine::In { def, .. } | RecipeLine::Out { def, .. } => Some(def),
        RecipeLine::Parameter { .. } | RecipeLine::Phase { .. } => None,
    }
}
