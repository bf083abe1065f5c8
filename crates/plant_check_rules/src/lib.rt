//! The rules of valid tables, and what they ask of stocks, lots and the history.
#![tactic(auto)]

pub mod checking;
pub mod edges;
pub mod ends;
pub mod history;
pub mod lots;
pub mod recalls;
mod rule;

pub use rule::Rule;
