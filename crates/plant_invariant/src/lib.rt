//! What holds of the rows of each state that commands lead to, in addition to the decision invariant: their values, their
//! numbers, their moments, how lots came to be, and that batches keep to their control recipes.
#![tactic(auto)]

mod laws;

pub use laws::invariant_law;
