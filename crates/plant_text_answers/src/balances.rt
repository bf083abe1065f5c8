//! The texts of balances of lots, and of what an order needs.
ghost use Rattle.std.specs.Prelude.{◌≡◌, IfOk};
ghost use Rattle.serde_json.specs.View.{view};
ghost use Rattle.plant_text_answers.specs.Balances.{balance_item, balances_data, entered_data};
ghost use Rattle.plant_text_answers.specs.Balances.{left_data, need_item, needs_data};

use crate::list_answers::rows_value;
use crate::listed_rows::Shown;
use crate::parts::unit_value;
use plant_questions::{LotBalance, LotFlows, Need};
use serde_json::{Value, json};
use std::alloc::{AllocError, Global};

fn entered_value(alloc: Global, flows: &LotFlows) -> Result<Value, AllocError>
    ensures { IfOk result (λ v. view v ≡ entered_data flows.now) }
{
    json!(in alloc; {
        "merged": (flows.merged_in), "produced": (flows.produced), "received": (flows.received), "split": (flows.split_in)
    })
}

fn left_value(alloc: Global, flows: &LotFlows) -> Result<Value, AllocError>
    ensures { IfOk result (λ v. view v ≡ left_data flows.now) }
{
    json!(in alloc; {
        "consumed": (flows.consumed), "merged": (flows.merged_out), "scrapped": (flows.scrapped), "split": (flows.split_out)
    })
}

impl Shown for LotBalance {
    ghost shows = { balance_item };

    fn value(&self, alloc: Global) -> Result<Value, AllocError> {
        let known = &self.standing.known;
        let entered = entered_value(alloc, &self.flows)?;
        let left = left_value(alloc, &self.flows)?;
        let sublots = rows_value(alloc, known.sublots.as_slice())?;
        let unit = unit_value(alloc, self.unit)?;
        json!(in alloc; {
            "def": (known.def.as_str()), "entered": entered, "held": (known.held), "left": left, "lot": (known.lot.as_str()),
            "recalled": (self.standing.recalled), "stock": (known.stock), "sublots": sublots, "unit": unit
        })
    }
}

impl Shown for Need {
    ghost shows = { need_item };

    fn value(&self, alloc: Global) -> Result<Value, AllocError> {
        let unit = unit_value(alloc, self.unit)?;
        json!(in alloc; {
            "asked": (self.asked), "def": (self.def.as_str()), "short": (self.short), "unit": unit, "usable": (self.usable)
        })
    }
}

/// What is shown of the balances of lots.
pub(crate) fn balances_value(alloc: Global, lots: &[LotBalance]) -> Result<Value, AllocError>
    ensures { IfOk result (λ v. view v ≡ balances_data lots.now) }
{
    let rows = rows_value(alloc, lots)?;
    json!(in alloc; {"lots": rows})
}

/// What is shown of what an order needs.
pub(crate) fn needs_value(alloc: Global, needs: &[Need]) -> Result<Value, AllocError>
    ensures { IfOk result (λ v. view v ≡ needs_data needs.now) }
{
    let rows = rows_value(alloc, needs)?;
    json!(in alloc; {"needs": rows})
}
