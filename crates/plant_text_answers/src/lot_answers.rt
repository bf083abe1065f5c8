//! The texts of answers about lots.
ghost use Rattle.std.specs.Prelude.{◌≡◌, map, IfOk};
ghost use Rattle.serde_json.specs.Data.{array};
ghost use Rattle.serde_json.specs.View.{view, items_of};
ghost use Rattle.plant_text_answers.specs.LotAnswers.{lot_data, standing_data, stands_data};

use crate::list_answers::rows_value;
use plant_questions::{LotAnswer, StandingLot};
use serde_json::{Value, json};
use std::alloc::{AllocError, Global};

/// What is shown of a lot.
pub(crate) fn lot_value(alloc: Global, lot: &LotAnswer) -> Result<Value, AllocError>
    ensures { IfOk result (λ v. view v ≡ lot_data lot.now) }
{
    let sublots = rows_value(alloc, lot.sublots.as_slice())?;
    json!(in alloc; {
        "def": (lot.def.as_str()), "held": (lot.held), "lot": (lot.lot.as_str()), "stock": (lot.stock),
        "sublots": sublots
    })
}

/// What is shown of a lot that has stock.
fn standing_value(alloc: Global, lot: &StandingLot) -> Result<Value, AllocError>
    ensures { IfOk result (λ v. view v ≡ standing_data lot.now) }
{
    let known = &lot.known;
    let sublots = rows_value(alloc, known.sublots.as_slice())?;
    json!(in alloc; {
        "def": (known.def.as_str()), "held": (known.held), "lot": (known.lot.as_str()), "recalled": (lot.recalled),
        "stock": (known.stock), "sublots": sublots
    })
}

fn lots_value(alloc: Global, lots: &[StandingLot]) -> Result<Value, AllocError>
    ensures { IfOk result (λ v. view v ≡ array (items_of (map standing_data lots.now))) }
{
    let mut list = Vec::new(alloc);
    for lot in lots {
        let value = standing_value(alloc, lot)?;
        list.push(value)?;
    }
    Ok(Value::Array(list))
}

/// What is shown of where goods are.
pub(crate) fn stands_value(alloc: Global, lots: &[StandingLot]) -> Result<Value, AllocError>
    ensures { IfOk result (λ v. view v ≡ stands_data lots.now) }
{
    let list = lots_value(alloc, lots)?;
    json!(in alloc; {"lots": list})
}
