//! The texts of the genealogy around a lot or batch.
ghost use Rattle.std.specs.Prelude.{◌≡◌, IfOk};
ghost use Rattle.serde_json.specs.View.{view};
ghost use Rattle.plant_text_answers.specs.EdgeAnswers.{edge_item, genealogy_data, lot_node_data};
ghost use Rattle.plant_text_answers.specs.EdgeAnswers.{node_item};

use crate::list_answers::rows_value;
use crate::listed_rows::Shown;
use plant_questions::{BookedEdge, Genealogy, LotNode, NodeAnswer};
use plant_trace::Node;
use plant_view::ends;
use serde_json::{Value, json};
use std::alloc::{AllocError, Global};

fn lot_node_value(alloc: Global, lot: &LotNode) -> Result<Value, AllocError>
    ensures { IfOk result (λ v. view v ≡ lot_node_data lot.now) }
{
    json!(in alloc; {
        "def": (lot.def.as_str()), "held": (lot.held), "lot": (lot.lot.as_str()), "recalled": (lot.recalled),
        "stock": (lot.stock), "unit": (lot.unit.as_str())
    })
}

impl Shown for NodeAnswer {
    ghost shows = { node_item };

    fn value(&self, alloc: Global) -> Result<Value, AllocError> {
        match self {
            NodeAnswer::Lot(lot) => lot_node_value(alloc, lot),
            NodeAnswer::Batch(id) => Node::Batch(*id).value(alloc),
        }
    }
}

impl Shown for BookedEdge {
    ghost shows = { edge_item };

    fn value(&self, alloc: Global) -> Result<Value, AllocError> {
        let (from, to) = ends(&self.edge);
        let from = from.value(alloc)?;
        let to = to.value(alloc)?;
        json!(in alloc; {"amount": (self.amount), "from": from, "to": to})
    }
}

/// What is shown of the genealogy around a lot or batch.
pub(crate) fn genealogy_value(alloc: Global, genealogy: &Genealogy) -> Result<Value, AllocError>
    ensures { IfOk result (λ v. view v ≡ genealogy_data genealogy.now) }
{
    let edges = rows_value(alloc, genealogy.edges.as_slice())?;
    let nodes = rows_value(alloc, genealogy.nodes.as_slice())?;
    json!(in alloc; {"edges": edges, "nodes": nodes})
}
