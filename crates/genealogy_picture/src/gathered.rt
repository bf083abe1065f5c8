//! What the answers reported so far.
ghost use Rattle.std.specs.Prelude.{◌≡◌, OnOk};
ghost use Rattle.genealogy_picture.specs.Gathering.{nothing, with_lot, with_batch, with_node};
ghost use Rattle.genealogy_picture.specs.Gathering.{with_edge};

use crate::members::ReportedNode;
use genealogy_svg::{PictureLot, Reported, ReportedEdge};
use plant_base::{Id, Items};
use plant_trace::Node;
use std::alloc::{AllocError, Global};
use std::marker::Model;

/// What the answers reported so far, in their order.
#[derive(Debug, Drop)]
pub(crate) struct Gathered {
    lots: Vec<PictureLot>,
    batches: Vec<Id>,
    edges: Vec<ReportedEdge>,
}

impl Model for Gathered {
    ghost use Rattle.genealogy_svg.specs.declared.reported.Reported.{Reported};

    ghost Value = { Reported };

    ghost view = { λ g. record { lots = g.lots.items; batches = g.batches.items; edges = g.edges.items } };
}

impl Gathered {
    /// Nothing, before the first answer.
    pub(crate) fn new(alloc: Global) -> Self
        ensures { result ≡ nothing }
    {
        Gathered {
            lots: Vec::new(alloc),
            batches: Vec::new(alloc),
            edges: Vec::new(alloc),
        }
    }

    /// A node more. The only error is that memory was refused.
    pub(crate) fn add_node(&mut self, node: &ReportedNode) -> Result<(), AllocError>
        ensures { OnOk result (self.new ≡ with_node self.old node.now) }
    {
        match node {
            ReportedNode::Lot(lot) => self.add_lot(lot),
            ReportedNode::Batch(batch) => self.add_batch(batch),
        }
    }

    fn add_lot(&mut self, lot: &PictureLot) -> Result<(), AllocError>
        ensures { OnOk result (self.new ≡ with_lot self.old lot.now) }
    {
        self.lots.push(*lot)?;
        Ok(())
    }

    fn add_batch(&mut self, batch: &Id) -> Result<(), AllocError>
        ensures { OnOk result (self.new ≡ with_batch self.old batch.now) }
    {
        self.batches.push(*batch)?;
        Ok(())
    }

    /// An edge more. The only error is that memory was refused.
    pub(crate) fn add_edge(&mut self, from: Node, to: Node, amount: u64) -> Result<(), AllocError>
        ensures { OnOk result (self.new ≡ with_edge self.old (record { from = from; to = to; amount = amount })) }
    {
        self.edges.push(ReportedEdge { from, to, amount })?;
        Ok(())
    }

    /// All that was reported.
    pub(crate) fn into_reported(self) -> Reported
        ensures { result ≡ self }
    {
        Reported {
            lots: Items::new(self.lots),
            batches: Items::new(self.batches),
            edges: Items::new(self.edges),
        }
    }
}
