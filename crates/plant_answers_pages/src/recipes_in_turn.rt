// Which recipes begin with an id. Each may have many versions: one lookup finds the next recipe, whatever these.
ghost use Rattle.std.specs.Prelude.{◌≡◌, ◌++◌, IfOk, OnOk, is_some, map, option_and_then, option_to_list, slice_get, take, Some};
ghost use Rattle.plant_trace.specs.ReadOnly.{ReadOnly};
ghost use Rattle.plant_view.specs.DecisionInvariant.{DecisionInvariant};
ghost use Rattle.plant_questions.specs.{first_begun, most_found, page_of, recipes_after, versions_of};
ghost use Rattle.plant_answers_pages.specs.Finding.{each_id_once, id_if_begun, own_first};
ghost use Rattle.plant_answers_pages.specs.Finding.{recipes_left, IsWithin};

use crate::finding::with_own;
use plant_base::{Id, Items, Recipe};
use plant_questions::{MOST_FOUND, Page, Worklists, begins_with, first_begun};
use plant_view::ViewFault;
use std::alloc::{AllocError, Global};

/// The recipes whose ids begin so.
pub(crate) fn recipes_begun<V: Worklists>(
    alloc: Global,
    view: &mut V,
    beginning: Id,
) -> Result<Items<Id>, ViewFault<V::Fault>>
    ensures { ReadOnly V.Edges view.old view.new
        (DecisionInvariant (V.state view.old) → IfOk result
        (λ ids. ids ≡ first_begun beginning (each_id_once (map (λ r. r.header.recipe) (V.state view.old).recipes)))) }
{
    let own = versions_of(view, beginning)?;
    let further = recipes_after(alloc, view, beginning)?;
    let ids = begun_with(alloc, beginning, has_any(own.as_slice()), further)?;
    Ok(ids)
}

fn has_any(versions: &[Recipe]) -> bool
    ensures { result ≡ is_some (slice_get versions.now 0) }
{
    versions.first().is_some()
}

fn begun_with(
    alloc: Global,
    beginning: Id,
    there: bool,
    further: Vec<Id>,
) -> Result<Items<Id>, AllocError>
    ensures { IfOk result
        (λ ids. ids ≡ first_begun beginning (own_first there beginning further.items)) }
{
    let all = with_own(beginning, there, further)?;
    let begun = first_begun(alloc, beginning, all.as_slice())?;
    Ok(Items::new(begun))
}

// The first recipes after the id that begin with it.
fn recipes_after<V: Worklists>(
    alloc: Global,
    view: &mut V,
    beginning: Id,
) -> Result<Vec<Id>, ViewFault<V::Fault>>
    ensures { ReadOnly V.Edges view.old view.new
        (DecisionInvariant (V.state view.old) → IfOk result
        (λ ids. ids.items ≡ take most_found (recipes_left (V.state view.old) beginning (Some beginning)))) }
{
    let mut ids = Vec::new(alloc);
    let mut cursor = Some(beginning);
    for _ in 0..MOST_FOUND {
        cursor = next_recipe(view, beginning, &cursor)?;
        if push_id(&mut ids, &cursor).is_err() {
            return Err(ViewFault::Memory);
        }
    }
    Ok(ids)
}

// One more id at the end, where there is one.
fn push_id(ids: &mut Vec<Id>, next: &Option<Id>) -> Result<(), AllocError>
    ensures { OnOk result (ids.new.items ≡ ids.old.items ++ option_to_list next.now) }
{
    if let Some(id) = next {
        ids.push(*id)?;
    }
    Ok(())
}

// The next recipe after the cursor, where it begins so.
fn next_recipe<V: Worklists>(
    view: &mut V,
    beginning: Id,
    cursor: &Option<Id>,
) -> Result<Option<Id>, ViewFault<V::Fault>>
    ensures { ReadOnly V.Edges view.old view.new
        (DecisionInvariant (V.state view.old) → IsWithin beginning cursor.now → IfOk result
        (λ next. (recipes_left (V.state view.old) beginning cursor.now
        ≡ option_to_list next ++ recipes_left (V.state view.old) beginning next)
        × IsWithin beginning next)) }
{
    let Some(cursor) = cursor else {
        return Ok(None);
    };
    let page = page_after(view, *cursor)?;
    Ok(first_within(beginning, page.rows.as_slice()))
}

fn versions_of<V: Worklists>(view: &mut V, recipe: Id) -> Result<Vec<Recipe>, ViewFault<V::Fault>>
    ensures { ReadOnly V.Edges view.old view.new
        (IfOk result (λ rows. rows.items ≡ versions_of (V.state view.old) recipe)) }
{
    view.versions_of(recipe).map_err(ViewFault::View)
}

fn page_after<V: Worklists>(view: &mut V, recipe: Id) -> Result<Page<Recipe>, ViewFault<V::Fault>>
    ensures { ReadOnly V.Edges view.old view.new
        (IfOk result (λ page. page ≡ page_of (recipes_after (V.state view.old) (Some recipe)))) }
{
    view.recipes_after(Some(recipe)).map_err(ViewFault::View)
}

// The recipe of the first row, where it begins so.
fn first_within(beginning: Id, rows: &[Recipe]) -> Option<Id>
    ensures { result ≡ option_and_then (id_if_begun beginning) (slice_get rows.now 0) }
{
    match rows.first() {
        Some(row) if begins_with(&beginning, &row.header.recipe) => Some(row.header.recipe),
        _ => None,
    }
}
