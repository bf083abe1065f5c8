//! What is answered of lots and of their genealogy, over any view of the desk's state.
#![tactic(auto)]

mod around;
mod balances;
mod booked;
mod bookings;
mod each_told;
mod edge_answers;
mod known_lots;
mod lot_answers;
mod recalls;
mod standing;
mod stocked_lots;
mod traces;

pub use balances::{balance_answer, in_64_bits};
pub use bookings::{BatchBookings, bookings_of};
pub use each_told::{RowOf, each_row};
pub use edge_answers::edges_answer;
pub use known_lots::{KnownLots, known_row, standing_lot};
pub use lot_answers::lot_answer;
pub use recalls::recall_answer;
pub use standing::stands_answer;
pub use stocked_lots::lot_page;
pub use traces::trace_answer;
