//! Questions for pages of lists.

use crate::cursors::Cursor;
use plant_base::{Due, Id, JobState, RecipeState};

/// A list that a page is asked of, what it is of, and the cursor from which the page goes on: it has what comes after the cursor, or
/// the beginning where none is given. What the cursor names needn't be there.
#[derive(Clone, Copy, Debug, PartialEq, Eq)]
pub enum ListQuestion {
    /// The orders in a state.
    Orders(JobState, Option<Id>),
    /// The orders in a state by their due dates.
    OrdersByDue(JobState, Option<Cursor<Due, Id>>),
    /// The batches that aren't closed, and what is next in each.
    Batches(Option<Id>),
    /// The batches that are closed.
    ClosedBatches(Option<Id>),
    /// The lots of a definition that have stock.
    Lots(Id, Option<Id>),
    /// The holds of a lot.
    Holds(Id, Option<Id>),
    /// The holds of all lots, by lots.
    AllHolds(Option<Cursor<Id, Id>>),
    /// The recalls that weren't lifted.
    Recalls(Option<Id>),
    /// The recalls that were lifted.
    LiftedRecalls(Option<Id>),
    /// The classes.
    Classes(Option<Id>),
    /// The definitions of a class.
    Definitions(Id, Option<Id>),
    /// The versions of recipes in a state, by recipes.
    Recipes(RecipeState, Option<Cursor<Id, u16>>),
    /// The ledger of a lot: its movements by the numbers of their commands and by their lines.
    Movements(Id, Option<Cursor<u64, u16>>),
    /// The commands that had references, by their numbers, 1 to 10^15.
    Commands(Option<u64>),
    /// The commands that had references and name an id, by their numbers, 1 to 10^15.
    History(Id, Option<u64>),
    /// The lots of a definition that have stock, the oldest first: by the numbers of the bookings that made them, and by their ids.
    Stock(Id, Option<Cursor<u64, Id>>),
    /// What there is of the definitions of a class, by their ids.
    Stocks(Id, Option<Id>),
}
