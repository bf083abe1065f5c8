//! The JSON Schema of a value by its rule. What a value is is said in the words of the reports on lines.

use plant_base::{GREATEST_AMOUNT, GREATEST_MOMENT};
use plant_json_in::MemberRule;
use serde_json::{Value, json};
use std::alloc::{AllocError, Global};

/// An id.
const ID: &str = "^[A-Z][A-Z0-9-]{0,23}$";

/// A text.
const TEXT: &str = "^[ -~]{0,60}$";

/// A unit.
const UNIT: &str = "^[A-Za-z0-9]{1,8}$";

/// A day of the years 2000 to 2099: of each month, by how many days it has, and 29 February of leap years.
const DUE: &str =
    "^20([0-9]{2}-(0[13578]|1[02])-(0[1-9]|[12][0-9]|3[01])|[0-9]{2}-(0[469]|11)-(0[1-9]|[12][0-9]|30)|\
[0-9]{2}-02-(0[1-9]|1[0-9]|2[0-8])|([02468][048]|[13579][26])-02-29)$";

/// A place in a list of recipes.
const RECIPE_CURSOR: &str = "^[A-Z][A-Z0-9-]{0,23}[.][0-9]{1,3}$";

/// A place in a list of orders by their due dates.
const DUE_CURSOR: &str =
    "^20([0-9]{2}-(0[13578]|1[02])-(0[1-9]|[12][0-9]|3[01])|[0-9]{2}-(0[469]|11)-(0[1-9]|[12][0-9]|30)|\
[0-9]{2}-02-(0[1-9]|1[0-9]|2[0-8])|([02468][048]|[13579][26])-02-29)[.][A-Z][A-Z0-9-]{0,23}$";

/// A place in the list of the holds of all lots.
const HOLD_CURSOR: &str = "^[A-Z][A-Z0-9-]{0,23}[.][A-Z][A-Z0-9-]{0,23}$";

/// A place in a ledger.
const MOVEMENT_CURSOR: &str = "^[0-9]{1,16}[.][0-9]{1,3}$";

/// A place in a list of lots by the bookings that made them.
const BIRTH_CURSOR: &str = "^[0-9]{1,16}[.][A-Z][A-Z0-9-]{0,23}$";

/// The words for a batch.
const BATCH_WORDS: [&str; 8] = [
    "start", "hold", "restart", "stop", "abort", "reset", "pause", "resume",
];

/// The states of orders.
const ORDER_STATES: [&str; 4] = ["open", "cancelled", "released", "finished"];

/// The states of recipes.
const RECIPE_STATES: [&str; 3] = ["draft", "approved", "withdrawn"];

/// The rules that have a definition of their own, to which members refer.
pub(crate) const DEFINED: [MemberRule; 14] = [
    MemberRule::Id,
    MemberRule::Text,
    MemberRule::Unit,
    MemberRule::Due,
    MemberRule::Amount,
    MemberRule::Moment,
    MemberRule::Word,
    MemberRule::OrderState,
    MemberRule::RecipeState,
    MemberRule::RecipeCursor,
    MemberRule::DueCursor,
    MemberRule::HoldCursor,
    MemberRule::MovementCursor,
    MemberRule::BirthCursor,
];

/// The name of a rule's definition, `None` where it has none.
pub(crate) fn name_of(rule: MemberRule) -> Option<&'static str> {
    match rule {
        MemberRule::Id => Some("id"),
        MemberRule::Text => Some("text"),
        MemberRule::Unit => Some("unit"),
        MemberRule::Due => Some("due"),
        MemberRule::Amount => Some("amount"),
        MemberRule::Moment => Some("moment"),
        MemberRule::Word => Some("batch_word"),
        MemberRule::OrderState => Some("order_state"),
        MemberRule::RecipeState => Some("recipe_state"),
        MemberRule::RecipeCursor => Some("recipe_cursor"),
        MemberRule::DueCursor => Some("due_cursor"),
        MemberRule::HoldCursor => Some("hold_cursor"),
        MemberRule::MovementCursor => Some("movement_cursor"),
        MemberRule::BirthCursor => Some("birth_cursor"),
        MemberRule::Number(_, _) | MemberRule::Small(_, _) => None,
        MemberRule::Command | MemberRule::Question | MemberRule::Kind => None,
        MemberRule::List | MemberRule::Object => None,
    }
}

/// A text of this pattern.
fn pattern_value(alloc: Global, says: &str, pattern: &str) -> Result<Value, AllocError> {
    json!(in alloc; {"description": says, "type": "string", "pattern": pattern})
}

/// A whole number from the least to the greatest.
fn range_value(alloc: Global, says: &str, least: u64, greatest: u64) -> Result<Value, AllocError> {
    json!(in alloc; {"description": says, "type": "integer", "minimum": least, "maximum": greatest})
}

/// One of these words.
fn words_value(alloc: Global, says: &str, words: &[&str]) -> Result<Value, AllocError> {
    let mut list = Vec::new(alloc);
    for word in words {
        list.push(json!(in alloc; (*word))?)?;
    }
    json!(in alloc; {"description": says, "enum": (Value::Array(list))})
}

/// The JSON Schema of the values that obey a rule.
pub(crate) fn rule_value(alloc: Global, rule: MemberRule) -> Result<Value, AllocError> {
    let text = rule.to_string(alloc)?;
    let says = text.as_str();
    match rule {
        MemberRule::Id => pattern_value(alloc, says, ID),
        MemberRule::Text => pattern_value(alloc, says, TEXT),
        MemberRule::Unit => pattern_value(alloc, says, UNIT),
        MemberRule::Due => pattern_value(alloc, says, DUE),
        MemberRule::RecipeCursor => pattern_value(alloc, says, RECIPE_CURSOR),
        MemberRule::DueCursor => pattern_value(alloc, says, DUE_CURSOR),
        MemberRule::HoldCursor => pattern_value(alloc, says, HOLD_CURSOR),
        MemberRule::MovementCursor => pattern_value(alloc, says, MOVEMENT_CURSOR),
        MemberRule::BirthCursor => pattern_value(alloc, says, BIRTH_CURSOR),
        MemberRule::Amount => range_value(alloc, says, 1, GREATEST_AMOUNT),
        MemberRule::Moment => range_value(alloc, says, 0, GREATEST_MOMENT),
        MemberRule::Number(least, greatest) => {
            range_value(alloc, says, u64::from(least), u64::from(greatest))
        }
        MemberRule::Small(least, greatest) => {
            range_value(alloc, says, u64::from(least), u64::from(greatest))
        }
        MemberRule::Word => words_value(alloc, says, &BATCH_WORDS),
        MemberRule::OrderState => words_value(alloc, says, &ORDER_STATES),
        MemberRule::RecipeState => words_value(alloc, says, &RECIPE_STATES),
        MemberRule::Command | MemberRule::Question | MemberRule::Kind => {
            json!(in alloc; {"description": says, "type": "string"})
        }
        MemberRule::List => json!(in alloc; {"description": says, "type": "array"}),
        MemberRule::Object => json!(in alloc; {"description": says, "type": "object"}),
    }
}
