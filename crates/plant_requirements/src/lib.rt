//! What is reported of a row that breaks a rule of valid tables, and the first row of which something is.
//! The rules on classes, recipes, orders, batches and events: what is reported of the first row that breaks them.
//!
//! Other rows are looked up by their key.
//! What the rules on movements, numbers, moments and receipts ask of a row, and the rules on recalls and on the order of moments,
//! each as a test.
//!
//! Other rows are looked up by their key.
#![tactic(auto)]

pub mod batches;
pub mod catalogue;
pub mod events;
mod fault;
pub mod first;
pub mod keys;
mod marks;
pub mod movements;
pub mod numbered;
pub mod numbering;
pub mod orders;
pub mod plan_keys;
pub mod recalls;
pub mod receipts;
pub mod recipes;
pub mod stock_keys;
mod table_names;
mod texts;
mod times;
mod value_rule;

pub use fault::{Column, Found, RowFault, RowKey, Wanted};
pub use marks::{are_marks, marks_within};
pub use recalls::are_recalls;
pub use table_names::{Table, all_tables};
pub use times::moments_never_fall;
pub use value_rule::ValueRule;
