//! The migration of the desk's tables from one schema to the next, up to the newest.
#![tactic(auto)]

mod changes;
mod migration;
mod rows;
mod steps;

pub use migration::{RaiseFault, raise};
pub use rows::migrate_rows;
