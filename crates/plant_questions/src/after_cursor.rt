//! The cursor in a list from which a page goes on.
ghost use Rattle.std.specs.Prelude.{◌≡◌};
ghost use Rattle.plant_questions.specs.Worklists.{text_after, is_after, recipe_after};
ghost use Rattle.plant_questions.specs.Worklists.{is_recipe_after, movement_after};
ghost use Rattle.plant_questions.specs.Worklists.{is_movement_after, due_after, is_due_after};
ghost use Rattle.plant_questions.specs.Worklists.{number_after, is_number_after};

use crate::cursors::Cursor;
use plant_base::{Due, Id, Job, Movement, Receipt, Recipe};

/// The text that a list's ids are to come after: where no id is given the empty one, which each id comes after.
pub fn text_after(cursor: &Option<Id>) -> &str
    ensures { result.now ≡ text_after cursor.now }
{
    match cursor {
        Some(id) => id.as_str(),
        None => "",
    }
}

/// Whether an id comes after this one.
pub fn is_after(id: &Id, cursor: &Option<Id>) -> bool
    ensures { result ≡ is_after cursor.now id.now }
{
    id.as_str() > text_after(cursor)
}

/// The id of the recipe that a list's recipes are to come after, or be: the empty text where no cursor is given.
pub fn recipe_text_after(cursor: &Option<Cursor<Id, u16>>) -> &str
    ensures { result.now ≡ (recipe_after cursor.now).first }
{
    match cursor {
        Some(place) => place.first.as_str(),
        None => "",
    }
}

/// The version of that recipe that its further versions are to come after: 0 where no cursor is given.
pub fn version_after(cursor: &Option<Cursor<Id, u16>>) -> u16
    ensures { result ≡ (recipe_after cursor.now).second }
{
    match cursor {
        Some(place) => place.second,
        None => 0,
    }
}

/// Whether a version of a recipe comes after this cursor.
pub fn is_recipe_after(row: &Recipe, cursor: &Option<Cursor<Id, u16>>) -> bool
    ensures { result ≡ is_recipe_after cursor.now row.now }
{
    let header = &row.header;
    let by_recipe = header.recipe.as_str().cmp(recipe_text_after(cursor));
    let by_version = header.version.cmp(&version_after(cursor));
    by_recipe.then(by_version).is_gt()
}

/// The cursor that a ledger's movements are to come after: where none is given, one that each movement comes after.
pub fn movement_after(cursor: &Option<Cursor<u64, u16>>) -> Cursor<u64, u16>
    ensures { result ≡ movement_after cursor.now }
{
    match cursor {
        Some(place) => *place,
        None => Cursor {
            first: 0,
            second: 0,
        },
    }
}

/// Whether a movement comes after this cursor.
pub fn is_movement_after(row: &Movement, cursor: &Option<Cursor<u64, u16>>) -> bool
    ensures { result ≡ is_movement_after cursor.now row.now }
{
    let place = movement_after(cursor);
    let by_seq = row.seq.cmp(&place.first);
    by_seq.then(row.line.cmp(&place.second)).is_gt()
}

/// The due date that a list's orders are to come after, or be due on: the empty text where no cursor is given.
pub fn due_text_after(cursor: &Option<Cursor<Due, Id>>) -> &str
    ensures { result.now ≡ (due_after cursor.now).first }
{
    match cursor {
        Some(place) => place.first.as_str(),
        None => "",
    }
}

/// The id of the order of that day that its further orders are to come after: the empty text where no cursor is given.
pub fn order_text_after(cursor: &Option<Cursor<Due, Id>>) -> &str
    ensures { result.now ≡ (due_after cursor.now).second }
{
    match cursor {
        Some(place) => place.second.as_str(),
        None => "",
    }
}

/// Whether an order comes after this cursor in a list by due dates.
pub fn is_due_after(row: &Job, cursor: &Option<Cursor<Due, Id>>) -> bool
    ensures { result ≡ is_due_after cursor.now row.now }
{
    let by_due = row.order.due.as_str().cmp(due_text_after(cursor));
    let by_order = row.order.order.as_str().cmp(order_text_after(cursor));
    by_due.then(by_order).is_gt()
}

/// The number that a list's receipts are to come after: 0 where none is given.
pub fn number_after(cursor: Option<u64>) -> u64
    ensures { result ≡ number_after cursor }
{
    cursor.unwrap_or(0)
}

/// Whether a receipt comes after this number.
pub fn is_number_after(row: &Receipt, cursor: Option<u64>) -> bool
    ensures { result ≡ is_number_after cursor row.now }
{
    row.seq > number_after(cursor)
}
