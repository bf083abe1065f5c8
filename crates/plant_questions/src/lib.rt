//! Worklists of the desk: the rows of a state that are in some way open or belong together, a page at a time; and what else
//! questions alone look up.
//! The questions of a desk, and its answers, replies and faults.
//! Rows in the order of their keys.
#![tactic(auto)]

mod after_cursor;
mod booked;
mod cursors;
mod finding;
mod genealogy;
mod hold_pages;
mod id_keys;
mod key_order;
mod keys;
mod list_question;
mod listed;
mod lot_prefetch;
mod merging;
mod movements;
mod of_lot;
mod page;
mod phases;
mod policy;
mod prefetch;
mod question;
mod reply;
mod runs;
mod sorted;
mod view;

pub use after_cursor::{
    due_text_after, is_after, is_due_after, is_movement_after, is_number_after, is_recipe_after,
    movement_after, number_after, order_text_after, recipe_text_after, text_after, version_after,
};
pub use booked::booked_of;
pub use cursors::{Cursor, CursorKey};
pub use finding::{FoundIds, MOST_FOUND, begins_with, first_begun};
pub use genealogy::{BookedEdge, Genealogy, LotNode, NodeAnswer};
pub use hold_pages::all_holds;
pub use key_order::HasKeyOrder;
pub use keys::{ByDue, ByNumber};
pub use list_question::ListQuestion;
pub use listed::{
    BookedCommand, CommandHead, DefinitionStock, HistoryPage, Listed, LotPage, NamedCommand,
    NextPhase, OpenBatch, PlannedBatch, StockedLot,
};
pub use lot_prefetch::{prefetched_is_held, prefetched_lot, prefetched_sublots};
pub use merging::merge_pages;
pub use movements::{movements_into, other_lot};
pub use of_lot::OfLot;
pub use page::{PAGE_SIZE, Page, first_page};
pub use phases::phases_in;
pub use policy::PrefetchPolicy;
pub use prefetch::ReadAhead;
pub use question::{
    Answer, BatchLines, BatchView, BookedLine, Booking, LotAnswer, LotBalance, LotFlows,
    MeasuredLine, Need, OrderAnswer, Question, RecallAnswer, RecipeAnswer, RecipeLineAnswer,
    StandingLot,
};
pub use reply::{DeskFault, Reply};
pub use sorted::{HasKey, in_order, put_row};
pub use view::Worklists;
