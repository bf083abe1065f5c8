//! Whether pairs already are in an order in which they lead on, as those of a plant's movements do.

ghost use Rattle.std.specs.Prelude.{◌≡◌, ◌<◌, ◌↔◌, ◌^◌, IfOk, IsTrue, OnOk};
ghost use Rattle.plant_trace.specs.Mentions.{mentions_in, noted, noted_end, noted_start};
ghost use Rattle.plant_trace.specs.Mentions.{mention_rank, rank_without};
ghost use Rattle.plant_trace.specs.Ranks.{Rises};
ghost use Rattle.plant_trace.specs.Reach.{IsAcyclic};

use crate::node::Node;
use grouped_rows::{Grouped, Grouping};
use std::alloc::{AllocError, Global};

/// A mention of a node.
#[derive(Clone, Copy)]
pub struct Mention {
    /// The node.
    pub node: Node,
    /// Its position among the mentions, from 1 on.
    pub at: usize,
}

/// Mentions by their node.
pub struct ByNode;

impl Grouping for ByNode {
    ghost use Rattle.std.specs.Prelude.{Some};

    type Row = Mention;

    type Key = Node;

    ghost key_of = { λ m. Some m.node };

    fn key(row: &Mention) -> Option<Node> {
        Some(row.node)
    }
}

/// Mentions a node after the others.
fn note(mentions: &mut Vec<Mention>, node: Node) -> Result<(), AllocError>
    ensures { OnOk result (mentions.new.items ≡ noted mentions.old.items node) }
{
    let at = mentions.len() + 1;
    mentions.push(Mention { node, at })?;
    Ok(())
}

/// Mentions a batch that something comes of.
fn note_start(mentions: &mut Vec<Mention>, start: Node) -> Result<(), AllocError>
    ensures { OnOk result (mentions.new.items ≡ noted_start mentions.old.items start) }
{
    match start {
        Node::Lot(_) => Ok(()),
        Node::Batch(_) => note(mentions, start),
    }
}

/// Mentions a lot that comes of something.
fn note_end(mentions: &mut Vec<Mention>, end: Node) -> Result<(), AllocError>
    ensures { OnOk result (mentions.new.items ≡ noted_end mentions.old.items end) }
{
    match end {
        Node::Lot(_) => note(mentions, end),
        Node::Batch(_) => Ok(()),
    }
}

/// Mentions of the ends of the pairs: of a lot where it comes of something, of a batch where something comes of it, since
/// much goes into it before.
fn mentions_in(alloc: Global, pairs: &[(Node, Node)]) -> Result<Vec<Mention>, AllocError>
    ensures { IfOk result (λ mentions. mentions.items ≡ mentions_in pairs.now) }
{
    let mut mentions = Vec::new(alloc);
    for pair in pairs {
        note_start(&mut mentions, pair.0)?;
        note_end(&mut mentions, pair.1)?;
    }
    Ok(mentions)
}

/// The position of a node's first mention. A lot that has none comes of nothing, and is before all; of a batch that has none
/// nothing comes, and it is after all.
fn mention_rank(mentions: &Grouped<ByNode>, node: Node) -> usize
    ensures { result ≡ mention_rank mentions.now.rows.now node }
{
    match mentions.first(node) {
        Some(first) => first.at,
        None => rank_without(&node, mentions.rows.len()),
    }
}

/// The position of a node that isn't mentioned, among so many mentions.
fn rank_without(node: &Node, mentions: usize) -> usize
    requires { mentions < 2 ^ 63 }
    ensures { result ≡ rank_without node.now mentions }
{
    match node {
        Node::Lot(_) => 0,
        Node::Batch(_) => mentions + 1,
    }
}

fn leads_on(mentions: &Grouped<ByNode>, pair: (Node, Node)) -> bool
    ensures { IsTrue result ↔ (mention_rank mentions.now.rows.now pair.0 < mention_rank mentions.now.rows.now pair.1) }
{
    mention_rank(mentions, pair.0) < mention_rank(mentions, pair.1)
}

/// Whether each pair leads to a later position.
fn rises(mentions: &Grouped<ByNode>, pairs: &[(Node, Node)]) -> bool
    ensures { IsTrue result ↔ Rises (mention_rank mentions.now.rows.now) pairs.now }
{
    for pair in pairs {
        if !leads_on(mentions, *pair) {
            return false;
        }
    }
    true
}

/// Whether each pair leads to a node that is first mentioned later. The only error is that memory was refused.
/// A no says nothing: pairs without a cycle may be in another order.
pub fn rises_by_mention(alloc: Global, pairs: &[(Node, Node)]) -> Result<bool, AllocError>
    ensures { IfOk result (λ yes. IsTrue yes → IsAcyclic pairs.now) }
{
    let mentions = mentions_in(alloc, pairs)?;
    let ranks = Grouped::<ByNode>::new(alloc, &mentions)?;
    Ok(rises(&ranks, pairs))
}
