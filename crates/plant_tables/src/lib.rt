//! The tables of the desk in a SQLite store: how each is declared, and how its rows are written.
//! What was loaded of the desk's tables as rows of the desk: each value is judged by its rule.
#![tactic(auto)]

mod commit;
mod desk_rows;
mod finding;
mod indexing;
mod laws;
mod loaded;
mod migration;
mod readings;
mod select_texts;
pub mod table_defs;
mod write;

pub use commit::{commit_changes, commit_opening};
pub use desk_rows::{DeskRows, has_meta, only_meta, reading_laws, rows_of, take_rows};
pub use finding::{FoundTables, found, lacks_counts, read_meta};
pub use indexing::commit_missing;
pub use laws::put_law;
pub use loaded::Loaded;
pub use migration::commit_migration;
pub use plant_tables_columns::{BookedRow, MovementKindCode, RecallState, StatedRecall};
pub use write::{create, write_change, write_changes};
