//! The values of pages whose rows show more than those of other lists do: the holds of all lots, and the recalls that were lifted.
ghost use Rattle.std.specs.Prelude.{◌≡◌, IfOk};
ghost use Rattle.serde_json.specs.View.{view};
ghost use Rattle.plant_text_answers.specs.ListAnswers.{rows_data, all_holds_item, all_holds_data};
ghost use Rattle.plant_text_answers.specs.ListAnswers.{lifting_data, lifting_or_null, lifted_item};
ghost use Rattle.plant_text_answers.specs.ListAnswers.{lifted_data};

use plant_base::{Hold, Lifting, Recall};
use plant_questions::Page;
use serde_json::{Value, json};
use std::alloc::{AllocError, Global};

/// What is shown of a hold with its lot.
fn hold_value(alloc: Global, hold: &Hold) -> Result<Value, AllocError>
    ensures { IfOk result (λ v. view v ≡ all_holds_item hold.now) }
{
    json!(in alloc; {
        "at": (hold.at.get()), "by": (hold.by.as_str()), "hold": (hold.id.as_str()), "lot": (hold.lot.as_str()),
        "note": (hold.note.as_str())
    })
}

fn holds_with_lots(alloc: Global, holds: &[Hold]) -> Result<Value, AllocError>
    ensures { IfOk result (λ v. view v ≡ rows_data all_holds_item holds.now) }
{
    let mut list = Vec::new(alloc);
    for hold in holds {
        let value = hold_value(alloc, hold)?;
        list.push(value)?;
    }
    Ok(Value::Array(list))
}

/// What is shown of a page of the holds of all lots.
pub(crate) fn all_holds_value(alloc: Global, page: &Page<Hold>) -> Result<Value, AllocError>
    ensures { IfOk result (λ v. view v ≡ all_holds_data page.now) }
{
    let rows = holds_with_lots(alloc, page.rows.as_slice())?;
    json!(in alloc; {"holds": rows, "more": (page.has_more)})
}

fn lifting_value(alloc: Global, lifting: &Lifting) -> Result<Value, AllocError>
    ensures { IfOk result (λ v. view v ≡ lifting_data lifting.now) }
{
    json!(in alloc; {"at": (lifting.at.get()), "by": (lifting.by.as_str()), "note": (lifting.note.as_str())})
}

/// How a recall was lifted, null where it is open.
fn lifting_or_null(alloc: Global, lifting: &Option<Lifting>) -> Result<Value, AllocError>
    ensures { IfOk result (λ v. view v ≡ lifting_or_null lifting.now) }
{
    match lifting {
        None => Ok(Value::Null),
        Some(lifting) => lifting_value(alloc, lifting),
    }
}

/// What is shown of a recall with its lifting.
fn recall_value(alloc: Global, recall: &Recall) -> Result<Value, AllocError>
    ensures { IfOk result (λ v. view v ≡ lifted_item recall.now) }
{
    let lift = lifting_or_null(alloc, &recall.lifting)?;
    json!(in alloc; {
        "at": (recall.at.get()), "by": (recall.by.as_str()), "lift": lift, "lot": (recall.lot.as_str()),
        "note": (recall.note.as_str()), "recall": (recall.id.as_str())
    })
}

fn recalls_with_liftings(alloc: Global, recalls: &[Recall]) -> Result<Value, AllocError>
    ensures { IfOk result (λ v. view v ≡ rows_data lifted_item recalls.now) }
{
    let mut list = Vec::new(alloc);
    for recall in recalls {
        let value = recall_value(alloc, recall)?;
        list.push(value)?;
    }
    Ok(Value::Array(list))
}

/// What is shown of a page of the recalls that were lifted.
pub(crate) fn lifted_value(alloc: Global, page: &Page<Recall>) -> Result<Value, AllocError>
    ensures { IfOk result (λ v. view v ≡ lifted_data page.now) }
{
    let rows = recalls_with_liftings(alloc, page.rows.as_slice())?;
    json!(in alloc; {"more": (page.has_more), "recalls": rows})
}
