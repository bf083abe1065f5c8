//! The columns of the desk's tables: how each is stored, how it is read by the rule of its values, and the row of the
//! desk that is decoded from a stored row.
#![tactic(auto)]

mod booked;
mod decoded;
mod edges;
mod line;
mod marks;
mod masters;
mod meta;
mod naming;
mod orders;
mod plain_rows;
pub mod reading;
mod recalls;
mod receipts;
mod stocks;
pub mod storing;

pub use booked::{BookedRow, MovementKindCode};
pub use decoded::{Decoded, decode_all};
pub use edges::edge_values;
pub use marks::mark_values;
pub use masters::{master_line_values, recipe_values};
pub use meta::meta_values;
pub use orders::{batch_values, control_line_values, event_values, job_values};
pub use plain_rows::{class_values, definition_values};
pub use recalls::{RecallState, StatedRecall, recall_values};
pub use receipts::{decode_receipts, receipt_values};
pub use stocks::{hold_values, lot_values, movement_values, sublot_values};
