//! The checks pass exactly for the tables of valid states: completeness and soundness, as two laws.
#![tactic(auto)]

mod laws;

pub use laws::{completeness_laws, soundness_laws};
