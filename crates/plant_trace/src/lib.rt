//! The genealogy of lots and batches: nodes, edges between them, traces along edges, and cycles.
#![tactic(auto)]

mod cycles;
mod direction;
mod edges;
mod fault;
mod growth;
mod indexed;
mod listed;
mod mention_order;
mod node;
mod positions;
mod recalls;
mod seen;
mod steps;
mod worklist;

pub use cycles::{acyclic, has};
pub use direction::Direction;
pub use edges::Edges;
pub use fault::TraceFault;
pub use growth::{growth_law, reach_law};
pub use indexed::Indexed;
pub use listed::{PairList, ends, neighbours};
pub use node::Node;
pub use recalls::{reached, recall_law};
pub use worklist::closure;
