// What is answered of a recall.
ghost use Rattle.std.specs.Prelude.{◌≡◌, IfOk};
ghost use Rattle.plant_base.specs.{State, recall_at};
ghost use Rattle.plant_trace.specs.ReadOnly.{ReadOnly};
ghost use Rattle.plant_view.specs.{edges_of};
ghost use Rattle.plant_answers_genealogy.specs.RecallAnswers.{answer_recall, nodes_of, reached_list};

use plant_base::{Id, Items, Recall, Refusal};
use plant_questions::{Answer, RecallAnswer};
use plant_trace::{Node, reached};
use plant_view::{View, ViewFault, lookup};
use std::alloc::Global;

/// What is known of a recall: its lot, whether it is open, and what it reaches then.
pub fn recall_answer<V: View>(
    alloc: Global,
    view: &mut V,
    recall: Id,
) -> Result<Answer, ViewFault<V::Fault>>
    ensures { ReadOnly V.Edges view.old view.new
        (IfOk result (λ a. a ≡ answer_recall (V.state view.old)
        (recall_at (V.state view.old) recall))) }
{
    let known = lookup::recall(view, recall)?;
    let nodes = nodes_of(alloc, view, &known)?;
    Ok(answer_of_recall(known, nodes))
}

// The answer by what was found.
fn answer_of_recall(known: Option<Recall>, nodes: Vec<Node>) -> Answer
    ensures { (s : State) → nodes.items ≡ nodes_of s known → result ≡ answer_recall s known }
{
    match known {
        None => Answer::Unknown(Refusal::UnknownRecall),
        Some(recall) => Answer::Recall(RecallAnswer {
            recall: recall.id,
            lot: recall.lot,
            is_open: recall.is_open(),
            nodes: Items::new(nodes),
        }),
    }
}

// What an open recall reaches, and nothing where there is none.
fn nodes_of<V: View>(
    alloc: Global,
    view: &mut V,
    known: &Option<Recall>,
) -> Result<Vec<Node>, ViewFault<V::Fault>>
    ensures { ReadOnly V.Edges view.old view.new
        (IfOk result (λ nodes. nodes.items ≡ nodes_of (V.state view.old) known.now)) }
{
    let Some(recall) = known else {
        return Ok(Vec::new(alloc));
    };
    if !recall.is_open() {
        return Ok(Vec::new(alloc));
    }
    nodes_reached(alloc, view, recall.lot)
}

fn nodes_reached<V: View>(
    alloc: Global,
    view: &mut V,
    lot: Id,
) -> Result<Vec<Node>, ViewFault<V::Fault>>
    ensures { ReadOnly V.Edges view.old view.new
        (IfOk result (λ nodes. nodes.items ≡ reached_list (edges_of (V.state view.old)) lot)) }
{
    let nodes = reached(alloc, view, lot)?;
    Ok(nodes)
}
