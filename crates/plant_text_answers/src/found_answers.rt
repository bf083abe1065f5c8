//! The texts of the ids that begin with another.
ghost use Rattle.std.specs.Prelude.{◌≡◌, IfOk};
ghost use Rattle.serde_json.specs.Data.{string};
ghost use Rattle.serde_json.specs.View.{view};
ghost use Rattle.plant_text_answers.specs.FoundAnswers.{found_data};

use crate::list_answers::rows_value;
use crate::listed_rows::Shown;
use plant_base::Id;
use plant_questions::FoundIds;
use serde_json::{Value, json};
use std::alloc::{AllocError, Global};

impl Shown for Id {
    ghost shows = { string };

    fn value(&self, alloc: Global) -> Result<Value, AllocError> {
        json!(in alloc; (self.as_str()))
    }
}

/// What is shown of the ids that begin with another.
pub(crate) fn found_value(alloc: Global, found: &FoundIds) -> Result<Value, AllocError>
    ensures { IfOk result (λ v. view v ≡ found_data found.now) }
{
    let batches = rows_value(alloc, found.batches.as_slice())?;
    let classes = rows_value(alloc, found.classes.as_slice())?;
    let definitions = rows_value(alloc, found.definitions.as_slice())?;
    let lots = rows_value(alloc, found.lots.as_slice())?;
    let orders = rows_value(alloc, found.orders.as_slice())?;
    let recalls = rows_value(alloc, found.recalls.as_slice())?;
    let recipes = rows_value(alloc, found.recipes.as_slice())?;
    json!(in alloc; {
        "batches": batches, "classes": classes, "definitions": definitions, "lots": lots, "orders": orders, "recalls": recalls,
        "recipes": recipes
    })
}
