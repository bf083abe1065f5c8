//! The texts of traces.
ghost use Rattle.std.specs.Prelude.{◌≡◌, IfOk};
ghost use Rattle.serde_json.specs.View.{view};
ghost use Rattle.plant_text_answers.specs.TraceAnswers.{node_data, trace_data};

use crate::list_answers::rows_value;
use crate::listed_rows::Shown;
use plant_trace::Node;
use serde_json::{Value, json};
use std::alloc::{AllocError, Global};

// A lot or batch by its id.
impl Shown for Node {
    ghost shows = { node_data };

    fn value(&self, alloc: Global) -> Result<Value, AllocError> {
        match self {
            Node::Lot(id) => json!(in alloc; {"lot": (id.as_str())}),
            Node::Batch(id) => json!(in alloc; {"batch": (id.as_str())}),
        }
    }
}

/// What is shown of a trace.
pub(crate) fn trace_value(alloc: Global, nodes: &[Node]) -> Result<Value, AllocError>
    ensures { IfOk result (λ v. view v ≡ trace_data nodes.now) }
{
    let list = rows_value(alloc, nodes)?;
    json!(in alloc; {"nodes": list})
}
