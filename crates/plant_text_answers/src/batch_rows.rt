//! What is shown of a batch in a page.
ghost use Rattle.std.specs.Prelude.{◌≡◌, IfOk, option_map};
ghost use Rattle.serde_json.specs.View.{view};
ghost use Rattle.plant_text_answers.specs.ListAnswers.{batch_item, planned_data, planned_or_null};

use crate::listed_rows::Shown;
use crate::parts::{id_value, unit_value};
use plant_base::Id;
use plant_questions::{NextPhase, OpenBatch, PlannedBatch};
use serde_json::{Value, json};
use std::alloc::{AllocError, Global};

/// What is shown of the phase that is next, nothing where there is none.
#[derive(Clone, Copy)]
struct Next {
    phase: Option<Id>,
    unit: Option<Id>,
}

fn next_of(next_phase: &Option<NextPhase>) -> Next
    ensures phase { result.phase ≡ option_map (λ n. n.phase) next_phase.now }
    ensures unit { result.unit ≡ option_map (λ n. n.unit_procedure) next_phase.now }
{
    match next_phase {
        None => Next {
            phase: None,
            unit: None,
        },
        Some(next) => Next {
            phase: Some(next.phase),
            unit: Some(next.unit_procedure),
        },
    }
}

/// What is shown of what a batch is to make.
fn planned_value(alloc: Global, planned: &PlannedBatch) -> Result<Value, AllocError>
    ensures { IfOk result (λ v. view v ≡ planned_data planned.now) }
{
    let order = planned.order;
    let header = planned.header;
    let unit = unit_value(alloc, planned.unit)?;
    json!(in alloc; {
        "due": (order.due.as_str()), "priority": (order.priority), "product": (header.product.as_str()),
        "recipe": (order.recipe.as_str()), "size": (order.size.get()), "title": (header.title.as_str()), "unit": unit,
        "version": (order.version)
    })
}

/// The same, null where that isn't known.
fn planned_if_known(alloc: Global, planned: &Option<PlannedBatch>) -> Result<Value, AllocError>
    ensures { IfOk result (λ v. view v ≡ planned_or_null planned.now) }
{
    match planned {
        None => Ok(Value::Null),
        Some(planned) => planned_value(alloc, planned),
    }
}

impl Shown for OpenBatch {
    ghost shows = { batch_item };

    fn value(&self, alloc: Global) -> Result<Value, AllocError> {
        let row = &self.row;
        let next = next_of(&self.next_phase);
        let phase = id_value(alloc, next.phase)?;
        let phase_unit = id_value(alloc, next.unit)?;
        let planned = planned_if_known(alloc, &self.planned)?;
        json!(in alloc; {
            "at": (self.last.get()), "attempt": (row.attempt), "batch": (row.batch.id.as_str()), "next": (row.next),
            "order": (row.batch.job.as_str()), "phase": phase, "phase_unit": phase_unit, "phases": (self.phases),
            "planned": planned, "state": (row.state.name())
        })
    }
}
