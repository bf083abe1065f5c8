//! What holds in valid states of the rows that commands change in the tables: no row that is added has the key of another.
#![tactic(auto)]

mod laws;

pub use laws::fresh_law;
