// What a question is answered, over any view of the state.
ghost use Rattle.std.specs.Prelude.{◌≡◌, ℕ, List, IfOk};
ghost use Rattle.plant_base.specs.{State, newest_schema, job_at, batch_of};
ghost use Rattle.plant_trace.specs.ReadOnly.{ReadOnly};
ghost use Rattle.plant_view.specs.DecisionInvariant.{DecisionInvariant};
ghost use Rattle.plant_answers.specs.Answers.{answer, answer_order};
ghost use Rattle.plant_questions.specs.declared.question.Answer.TheVariants as A;

use crate::batch_answers::batch_answer;
use crate::batch_lines::batch_lines_answer;
use crate::list_answers::list_answer;
use crate::needs::needs_answer;
use plant_answers_genealogy::{
    balance_answer, edges_answer, lot_answer, recall_answer, stands_answer, trace_answer,
};
use plant_answers_pages::{definition_answer, find_answer, recipe_answer};
use plant_base::{Batch, Id, Job, NEWEST_SCHEMA, Refusal};
use plant_questions::{Answer, OrderAnswer, Question, Worklists};
use plant_view::{View, ViewFault, lookup};
use std::alloc::Global;

/// Answers a question over a view, as a desk of the newest schema. Nothing is written.
///
/// The answer is that of the view's state where that is consistent, as every state is that commands lead to.
/// `ViewFault::View` comes where the view failed, `ViewFault::Memory` where memory was refused.
#[tactic(auto, unfolding(crate::specs::Answers::answer))]
pub fn answer<V: Worklists>(
    alloc: Global,
    view: &mut V,
    question: &Question,
) -> Result<Answer, ViewFault<V::Fault>>
    ensures { ReadOnly V.Edges view.old view.new
        (DecisionInvariant (V.state view.old)
        → IfOk result (λ a. a ≡ answer newest_schema (V.state view.old) question.now)) }
{
    match question {
        Question::Desk => desk_answer(view),
        Question::Lot(lot) => lot_answer(view, *lot),
        Question::Order(order) => order_answer(view, *order),
        Question::Batch(batch) => batch_answer(alloc, view, *batch),
        Question::Trace(direction, start) => trace_answer(alloc, view, *direction, *start),
        Question::Stands(start) => stands_answer(alloc, view, *start),
        Question::Balance(start) => balance_answer(alloc, view, *start),
        Question::Edges(direction, start) => edges_answer(alloc, view, *direction, *start),
        Question::Recall(recall) => recall_answer(alloc, view, *recall),
        Question::Moment => moment_answer(view),
        Question::List(list) => list_answer(alloc, view, *list),
        Question::Definition(def) => definition_answer(view, *def),
        Question::Recipe(recipe, version) => recipe_answer(alloc, view, *recipe, *version),
        Question::BatchLines(batch) => batch_lines_answer(alloc, view, *batch),
        Question::Needs(order) => needs_answer(alloc, view, *order),
        Question::Find(beginning) => find_answer(alloc, view, *beginning),
    }
}

fn desk_answer<V: View>(view: &mut V) -> Result<Answer, ViewFault<V::Fault>>
    ensures { ReadOnly V.Edges view.old view.new
        (IfOk result (λ a. a ≡ A.Desk newest_schema (V.state view.old).seq)) }
{
    let position = lookup::position(view)?;
    Ok(Answer::Desk {
        schema: NEWEST_SCHEMA,
        seq: position.seq,
    })
}

fn moment_answer<V: View>(view: &mut V) -> Result<Answer, ViewFault<V::Fault>>
    ensures { ReadOnly V.Edges view.old view.new (IfOk result (λ a. a ≡ A.Moment (V.state view.old).at)) }
{
    let position = lookup::position(view)?;
    Ok(Answer::Moment { at: position.at })
}

fn order_answer<V: View>(view: &mut V, order: Id) -> Result<Answer, ViewFault<V::Fault>>
    ensures { ReadOnly V.Edges view.old view.new
        (IfOk result (λ a. a ≡ answer_order (V.state view.old) order
        (job_at (V.state view.old) order))) }
{
    let job = lookup::job(view, order)?;
    let batch = lookup::batch_for(view, order)?;
    Ok(answer_of_order(job, batch))
}

// The answer by the rows that were found.
fn answer_of_order(job: Option<Job>, batch: Option<Batch>) -> Answer
    ensures { (s : State) → (order : List ℕ) → batch ≡ batch_of s order
        → result ≡ answer_order s order job }
{
    match job {
        None => Answer::Unknown(Refusal::UnknownOrder),
        Some(job) => {
            let batch = batch.map(|b| b.id);
            Answer::Order(OrderAnswer { job, batch })
        }
    }
}
