//! The description of a table, and what SQL statements make of tables that were so described.
#![tactic(auto)]

mod fault;
mod frame;
mod statements;
mod stored_rows;
mod table_def;

pub use fault::{StoreFault, fault_of};
pub use frame::{TransactionWork, in_one};
pub use statements::{create_tables, delete_rows, put_row, run_create_indexes};
pub use stored_rows::{is_declared, is_free, is_taken};
pub use table_def::{ColumnDef, CreateIndexStatement, TableDef};
