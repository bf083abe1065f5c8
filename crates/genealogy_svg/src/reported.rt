//! What answers report, before it is put together, and what may be wrong with it.
ghost use Rattle.std.specs.Prelude.{◌≡◌, Some};
ghost use Rattle.genealogy_svg.specs.Reported.{graph_error_text};
ghost use Rattle.genealogy_svg.specs.declared.reported.UnitedFault.TheVariants as fault;

use crate::model::PictureLot;
use plant_base::{Id, Items};
use plant_trace::Node;
use std::alloc::AllocError;
use std::fmt;
use thiserror::Error;

/// An edge, as an answer reports it.
#[derive(Clone, Copy, Debug, PartialEq, Eq)]
pub struct ReportedEdge {
    /// Where it begins.
    pub from: Node,
    /// Where it ends.
    pub to: Node,
    /// How much.
    pub amount: u64,
}

/// What answers report, in their order: anything may be reported more than once.
#[derive(Debug, Drop)]
pub struct Reported {
    /// The lots.
    pub lots: Items<PictureLot>,
    /// The batches.
    pub batches: Items<Id>,
    /// The edges.
    pub edges: Items<ReportedEdge>,
}

/// Why what is reported makes no picture.
#[derive(Clone, Copy, Debug, PartialEq, Eq)]
pub enum GraphError {
    /// A lot is reported twice, with differences.
    Lot(Id),
    /// An edge is reported twice, with two amounts.
    Amounts(Node, Node),
    /// An edge begins or ends at a node that isn't reported.
    Lost(Node),
    /// An edge leads from a batch to a batch, so it has no unit.
    Batches(Id, Id),
}

impl std::error::Error for GraphError {}

impl fmt::Display for GraphError {
    ghost output = { λ graph_error. Some (graph_error_text graph_error) };

    fn fmt<W: fmt::Write>(&self, f: &mut fmt::Formatter<W>) -> fmt::Result {
        match self {
            GraphError::Lot(id) => {
                let id = id.as_str();
                write!(f, "lot {id} is told twice, and not alike")
            }
            GraphError::Amounts(from, to) => {
                write!(
                    f,
                    "the edge from {from} to {to} is told twice, with two amounts"
                )
            }
            GraphError::Lost(node) => {
                write!(
                    f,
                    "an edge begins or ends at {node}, which is none of the nodes"
                )
            }
            GraphError::Batches(from, to) => {
                let from = from.as_str();
                let to = to.as_str();
                write!(f, "an edge leads from batch {from} to batch {to}")
            }
        }
    }
}

/// Why no picture was made.
#[derive(Clone, Copy, Debug, PartialEq, Eq, Error)]
pub enum UnitedFault {
    /// What is reported makes none.
    #[error("{0}")]
    Reported(GraphError),
    /// Memory was refused.
    #[error("out of memory")]
    Memory,
}

impl From<AllocError> for UnitedFault {
    ghost from_gives = { λ _ made. made ≡ fault.Memory };

    fn from(_error: AllocError) -> Self {
        UnitedFault::Memory
    }
}
