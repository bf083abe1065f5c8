// What is answered of what an order needs: the inputs of its recipe, scaled to its size, and what there is of them.
ghost use Rattle.std.specs.Prelude.{◌≡◌, ◌-◌, IfOk, filter_map};
ghost use Rattle.plant_base.specs.{job_at, recipe_at};
ghost use Rattle.plant_trace.specs.ReadOnly.{ReadOnly};
ghost use Rattle.plant_view.specs.DecisionInvariant.{DecisionInvariant};
ghost use Rattle.plant_answers.specs.Needs.{answer_needs, need, need_of, needs_by};

use crate::stocks::{Part, all_in_stock, total_in};
use plant_answers_genealogy::in_64_bits;
use plant_answers_pages::found_recipe;
use plant_base::{Amount, Id, Items, Recipe, RecipeLine, Refusal, Unit};
use plant_questions::{Answer, Need, RecipeAnswer, RecipeLineAnswer, StandingLot, Worklists};
use plant_recipe::scaled;
use plant_view::{ViewFault, lookup};
use std::alloc::{AllocError, Global};

/// What an order needs.
pub(crate) fn needs_answer<V: Worklists>(
    alloc: Global,
    view: &mut V,
    order: Id,
) -> Result<Answer, ViewFault<V::Fault>>
    ensures { ReadOnly V.Edges view.old view.new
        (DecisionInvariant (V.state view.old)
        → IfOk result (λ a. a ≡ answer_needs (V.state view.old) (job_at (V.state view.old) order))) }
{
    let Some(job) = lookup::job(view, order)? else {
        return Ok(Answer::Unknown(Refusal::UnknownOrder));
    };
    let order = job.order;
    let needs = needs_of(alloc, view, order.recipe, order.version, order.size)?;
    Ok(Answer::Needs(Items::new(needs)))
}

// By the version of the recipe that the order names.
fn needs_of<V: Worklists>(
    alloc: Global,
    view: &mut V,
    recipe: Id,
    version: u16,
    size: Amount,
) -> Result<Vec<Need>, ViewFault<V::Fault>>
    ensures { ReadOnly V.Edges view.old view.new
        (DecisionInvariant (V.state view.old)
        → IfOk result (λ v. v.items ≡ needs_by (V.state view.old) size (recipe_at (V.state view.old) recipe version))) }
{
    let found = lookup::recipe(view, recipe, version)?;
    needs_by(alloc, view, size, found)
}

fn needs_by<V: Worklists>(
    alloc: Global,
    view: &mut V,
    size: Amount,
    recipe: Option<Recipe>,
) -> Result<Vec<Need>, ViewFault<V::Fault>>
    ensures { ReadOnly V.Edges view.old view.new
        (DecisionInvariant (V.state view.old)
        → IfOk result (λ v. v.items ≡ needs_by (V.state view.old) size recipe)) }
{
    let Some(recipe) = recipe else {
        return Ok(Vec::new(alloc));
    };
    let lots = all_in_stock(alloc, view)?;
    let lines = found_recipe(alloc, view, recipe)?;
    match needs_among(alloc, lots.as_slice(), &lines, size) {
        Ok(needs) => Ok(needs),
        Err(_) => Err(ViewFault::Memory),
    }
}

// The inputs of a recipe for a size, by what there is.
fn needs_among(
    alloc: Global,
    lots: &[StandingLot],
    recipe: &RecipeAnswer,
    size: Amount,
) -> Result<Vec<Need>, AllocError>
    ensures { IfOk result (λ v. v.items
        ≡ filter_map (need_of lots.now size recipe.now.recipe.header.base) recipe.now.lines) }
{
    let base = recipe.recipe.header.base;
    recipe
        .lines
        .as_slice()
        .iter()
        .filter_map(|line| need_of(lots, size, base, line))
        .collect(alloc)
}

fn need_of(
    lots: &[StandingLot],
    size: Amount,
    base: Amount,
    line: &RecipeLineAnswer,
) -> Option<Need>
    ensures { result ≡ need_of lots.now size base line.now }
{
    match line.line {
        RecipeLine::In { def, amount } => {
            let asked = in_64_bits(scaled(amount, size, base));
            let usable = total_in(lots, Part::Usable, def);
            Some(need(def, line.unit, asked, usable))
        }
        RecipeLine::Out { .. } | RecipeLine::Parameter { .. } | RecipeLine::Phase { .. } => None,
    }
}

fn need(def: Id, unit: Option<Unit>, asked: u64, usable: u64) -> Need
    ensures { result ≡ need def unit asked usable }
{
    Need {
        def,
        unit,
        asked,
        usable,
        short: asked.saturating_sub(usable),
    }
}
