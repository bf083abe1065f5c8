//! Order files: the orders of a planner as comma-separated values (RFC 4180).
#![tactic(auto)]

mod examining;
mod fault;
mod importing;
mod law;
mod read;
mod row;
mod source;

pub use examining::{Examined, NumberedOrder, RecordFault, examine};
pub use fault::{CsvFault, CsvKind};
pub use importing::{ImportMetadata, import};
pub use law::examination_law;
pub use read::{LONGEST_FILE, read_orders};
pub use source::{OrdersFault, examine_from, orders_from};
