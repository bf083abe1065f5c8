// Which ids begin with another, of each kind of thing.
ghost use Rattle.std.specs.Prelude.{◌≡◌, IfOk, map};
ghost use Rattle.plant_trace.specs.ReadOnly.{ReadOnly};
ghost use Rattle.plant_view.specs.DecisionInvariant.{DecisionInvariant};
ghost use Rattle.plant_questions.specs.{first_begun};
ghost use Rattle.plant_questions.specs.declared.question.Answer.TheVariants as A;
ghost use Rattle.plant_answers_pages.specs.Finding.{found_ids, own_first};

use crate::recipes_in_turn::recipes_begun;
use crate::rows_with_ids::HasId;
use plant_base::{BatchRow, Class, Definition, Id, Items, Job, Lot, Recall};
use plant_questions::{Answer, FoundIds, Worklists, first_begun};
use plant_view::ViewFault;
use std::alloc::{AllocError, Global};

/// Of each kind of thing the first ids that begin so.
pub fn find_answer<V: Worklists>(
    alloc: Global,
    view: &mut V,
    beginning: Id,
) -> Result<Answer, ViewFault<V::Fault>>
    ensures { ReadOnly V.Edges view.old view.new
        (DecisionInvariant (V.state view.old)
        → IfOk result (λ a. a ≡ A.Found (found_ids (V.state view.old) beginning))) }
{
    let batches = batches_begun(alloc, view, beginning)?;
    let classes = ids_begun::<Class, V>(alloc, view, beginning)?;
    let definitions = ids_begun::<Definition, V>(alloc, view, beginning)?;
    let lots = ids_begun::<Lot, V>(alloc, view, beginning)?;
    let orders = ids_begun::<Job, V>(alloc, view, beginning)?;
    let recalls = ids_begun::<Recall, V>(alloc, view, beginning)?;
    let recipes = recipes_begun(alloc, view, beginning)?;
    Ok(Answer::Found(FoundIds {
        batches,
        classes,
        definitions,
        lots,
        orders,
        recalls,
        recipes,
    }))
}

// The batches whose ids begin so.
fn batches_begun<V: Worklists>(
    alloc: Global,
    view: &mut V,
    beginning: Id,
) -> Result<Items<Id>, ViewFault<V::Fault>>
    ensures { ReadOnly V.Edges view.old view.new
        (DecisionInvariant (V.state view.old) → IfOk result
        (λ ids. ids ≡ first_begun beginning (map (λ b. b.id) (V.state view.old).batches))) }
{
    ids_begun::<BatchRow, V>(alloc, view, beginning)
}

// The ids of rows that begin so.
fn ids_begun<R: HasId + Drop, V: Worklists>(
    alloc: Global,
    view: &mut V,
    beginning: Id,
) -> Result<Items<Id>, ViewFault<V::Fault>>
    ensures { ReadOnly V.Edges view.old view.new
        (DecisionInvariant (V.state view.old) → IfOk result
        (λ ids. ids ≡ first_begun beginning (map R.id_of (R.all (V.state view.old))))) }
{
    let there = R::is_there(view, beginning)?;
    let page = R::page_after(view, beginning)?;
    let ids = begun_of(alloc, beginning, there, page.rows.as_slice())?;
    Ok(ids)
}

// The first that begin so of the id itself, where it is there, and of the ids of rows.
fn begun_of<R: HasId>(
    alloc: Global,
    beginning: Id,
    there: bool,
    rows: &[R],
) -> Result<Items<Id>, AllocError>
    ensures { IfOk result
        (λ ids. ids ≡ first_begun beginning (own_first there beginning (map R.id_of rows.now))) }
{
    let ids = ids_of(alloc, rows)?;
    let all = with_own(beginning, there, ids)?;
    let begun = first_begun(alloc, beginning, all.as_slice())?;
    Ok(Items::new(begun))
}

fn ids_of<R: HasId>(alloc: Global, rows: &[R]) -> Result<Vec<Id>, AllocError>
    ensures { IfOk result (λ ids. ids.items ≡ map R.id_of rows.now) }
{
    rows.iter().map(|row| row.id()).collect(alloc)
}

/// The id itself before others, where it is there.
pub(crate) fn with_own(id: Id, there: bool, mut ids: Vec<Id>) -> Result<Vec<Id>, AllocError>
    ensures { IfOk result (λ all. all.items ≡ own_first there id ids.items) }
{
    if there {
        ids.insert(0, id)?;
    }
    Ok(ids)
}
