//! The desk over its file: a keeper whose state is in the tables of one store.
#![tactic(auto)]

mod adopting;
mod check_error;
mod digest;
mod executing;
mod faults;
mod indexing;
mod laws;
mod lookups;
mod running;
mod stored;
#[cfg(test)]
mod tests;
mod verifying;

pub use adopting::{AdoptFault, AdoptRefused};
pub use digest::Digest;
pub use laws::{
    ask_with_outcome, check_with_outcome, desk_laws, execute_with_outcome, headline_law,
    replicas_law, resend_law,
};
pub use stored::Desk;
