//! Reading the rows of described tables: what a fixed SELECT of one table means, and reading its answer row by row.
#![tactic(auto)]

mod keys;
mod opening;
mod page;
mod reading;
mod table;

pub use keys::first_key;
pub use opening::{open_file, open_in_memory, open_over, reopen};
pub use page::{RowPage, find_page};
pub use reading::read_rows;
pub use table::{all_free, are_all_declared, find_rows, read_table};
