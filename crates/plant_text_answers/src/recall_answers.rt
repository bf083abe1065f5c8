//! The texts of answers about recalls.
ghost use Rattle.std.specs.Prelude.{◌≡◌, IfOk};
ghost use Rattle.serde_json.specs.View.{view};
ghost use Rattle.plant_text_answers.specs.RecallAnswers.{state_name, recall_data};

use crate::list_answers::rows_value;
use plant_questions::RecallAnswer;
use serde_json::{Value, json};
use std::alloc::{AllocError, Global};

fn state_name(is_open: bool) -> &'static str
    ensures { result.now ≡ state_name is_open }
{
    if is_open { "open" } else { "lifted" }
}

/// What is shown of a recall.
pub(crate) fn recall_value(alloc: Global, recall: &RecallAnswer) -> Result<Value, AllocError>
    ensures { IfOk result (λ v. view v ≡ recall_data recall.now) }
{
    let nodes = rows_value(alloc, recall.nodes.as_slice())?;
    json!(in alloc; {
        "lot": (recall.lot.as_str()), "nodes": nodes, "recall": (recall.recall.as_str()),
        "state": (state_name(recall.is_open))
    })
}
