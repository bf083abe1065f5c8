//! Values that several answers have.
ghost use Rattle.std.specs.Prelude.{◌≡◌, IfOk};
ghost use Rattle.serde_json.specs.View.{view};
ghost use Rattle.plant_text_answers.specs.Parts.{sublot_data, id_or_null, unit_or_null};
ghost use Rattle.plant_text_answers.specs.Parts.{number_or_null, text_or_null};

use crate::listed_rows::Shown;
use plant_base::{Id, Sublot, Text, Unit};
use serde_json::{Value, json};
use std::alloc::{AllocError, Global};

impl Shown for Sublot {
    ghost shows = { sublot_data };

    fn value(&self, alloc: Global) -> Result<Value, AllocError> {
        json!(in alloc; {"no": (self.number), "place": (self.place.as_str()), "stock": (self.stock)})
    }
}

/// An id, null where there is none.
pub(crate) fn id_value(alloc: Global, id: Option<Id>) -> Result<Value, AllocError>
    ensures { IfOk result (λ v. view v ≡ id_or_null id) }
{
    match id {
        None => Ok(Value::Null),
        Some(id) => json!(in alloc; (id.as_str())),
    }
}

/// A unit, null where there is none.
pub(crate) fn unit_value(alloc: Global, unit: Option<Unit>) -> Result<Value, AllocError>
    ensures { IfOk result (λ v. view v ≡ unit_or_null unit) }
{
    match unit {
        None => Ok(Value::Null),
        Some(unit) => json!(in alloc; (unit.as_str())),
    }
}

/// A text, null where there is none.
pub(crate) fn text_value(alloc: Global, text: Option<Text>) -> Result<Value, AllocError>
    ensures { IfOk result (λ v. view v ≡ text_or_null text) }
{
    match text {
        None => Ok(Value::Null),
        Some(text) => json!(in alloc; (text.as_str())),
    }
}

/// A number, null where there is none.
pub(crate) fn number_value(alloc: Global, number: Option<u64>) -> Result<Value, AllocError>
    ensures { IfOk result (λ v. view v ≡ number_or_null number) }
{
    match number {
        None => Ok(Value::Null),
        Some(number) => json!(in alloc; number),
    }
}
