//! The desk's rows, each found by its key by a query over a connection.
#![tactic(auto)]

mod edge_cache;
mod edges;
mod faults;
mod found;
mod keyed;
mod laws;
mod lookup_cache;
mod lookup_texts;
mod marks;
mod movements;
mod pages;
mod receipts;
mod stocked;
mod texts;
mod view;
mod worklists;

pub use edge_cache::EdgeCache;
pub use keyed::Keyed;
pub use laws::abstraction_law;
pub use lookup_cache::LookupCache;
