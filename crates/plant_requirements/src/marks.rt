//! The marks of what open recalls reach.

ghost use Rattle.std.specs.Prelude.{◌≡◌, ◌∷◌, ◌++◌, [], List, IfOk, OnOk, map};
ghost use Rattle.std.specs.List.{list_any};
ghost use Rattle.plant_base.specs.{is_open, mark_order, Recall};
ghost use Rattle.plant_trace.specs.{Lists, IsRecalled};
ghost use Rattle.plant_view.specs.{mark_on, marks, put_all};
ghost use Rattle.plant_requirements.specs.Marks.{are_same_marks, are_marks, AreExpected};

use plant_base::{Id, Mark, Movement, Recall};
use plant_trace::{Indexed, Node, reached};
use plant_view::{edges, mark_on};
use std::alloc::{AllocError, Global};
use std::collections::BTreeSet;

/// Whether these rows are just the marks of the open recalls on what they reach over the edges that the movements
/// make. The only error is that memory was refused.
///
/// The recalls are traced one after the other, until more marks are found than there are rows: so it goes over about as
/// many nodes as there are rows, and those of one recall more.
pub fn are_marks(
    alloc: Global,
    recalls: &[Recall],
    movements: &[Movement],
    rows: &[Mark],
) -> Result<bool, AllocError>
    ensures { IfOk result (λ b. b ≡ are_marks recalls.now movements.now rows.now) }
{
    if !is_some_open(recalls) {
        return Ok(are_none(rows));
    }
    let pairs = edges(alloc, movements)?;
    are_marks_along(alloc, recalls, &pairs, rows)
}

fn is_some_open(recalls: &[Recall]) -> bool
    ensures { result ≡ list_any is_open recalls.now }
{
    recalls.iter().any(|r| r.is_open())
}

fn are_none(rows: &[Mark]) -> bool
    ensures { result ≡ are_same_marks rows.now [] }
{
    match rows {
        [] => true,
        [_, ..] => false,
    }
}

fn are_marks_along(
    alloc: Global,
    recalls: &[Recall],
    pairs: &[(Node, Node)],
    rows: &[Mark],
) -> Result<bool, AllocError>
    ensures { IfOk result (λ b. b ≡ are_same_marks rows.now (marks recalls.now pairs.now)) }
{
    match marks_within(alloc, recalls, pairs, rows.len())? {
        Some(all) => Ok(rows == all.as_slice()),
        None => Ok(false),
    }
}

/// The marks of the open recalls on what they reach over these edges, in the order of their key; nothing where they are more than
/// `most`. The only error is that memory was refused.
pub fn marks_within(
    alloc: Global,
    recalls: &[Recall],
    pairs: &[(Node, Node)],
    most: usize,
) -> Result<Option<Vec<Mark>>, AllocError>
    ensures { IfOk result (AreExpected recalls.now pairs.now most) }
{
    let mut edges = Indexed::new(alloc, pairs)?;
    let mut all = BTreeSet::new(alloc);
    for recall in recalls {
        mark_reached(alloc, &mut edges, recall, &mut all)?;
        if all.len() > most {
            return Ok(None);
        }
    }
    Ok(Some(list_of(alloc, &all)?))
}

// Adds the marks of one recall.
fn mark_reached(
    alloc: Global,
    edges: &mut Indexed,
    recall: &Recall,
    all: &mut BTreeSet<Mark>,
) -> Result<(), AllocError>
    ensures same { edges.new.pairs.now ≡ edges.old.pairs.now }
    ensures marks { (prefix : List Recall) → all.old.keys ≡ marks prefix edges.old.pairs.now
        → OnOk result (all.new.keys ≡ marks (prefix ++ recall.now ∷ []) edges.old.pairs.now) }
{
    if !recall.is_open() {
        return Ok(());
    }
    let nodes = reached_in(alloc, edges, recall.lot)?;
    note_marks(all, recall.id, &nodes)?;
    Ok(())
}

fn reached_in(alloc: Global, edges: &mut Indexed, lot: Id) -> Result<Vec<Node>, AllocError>
    ensures same { edges.new.pairs.now ≡ edges.old.pairs.now }
    ensures lists { IfOk result (λ nodes. Lists (IsRecalled edges.old.pairs.now lot) nodes.items) }
{
    match reached(alloc, edges, lot) {
        Ok(nodes) => Ok(nodes),
        Err(_fault) => Err(AllocError),
    }
}

fn note_marks(all: &mut BTreeSet<Mark>, recall: Id, nodes: &[Node]) -> Result<(), AllocError>
    ensures { OnOk result (all.new.keys ≡ put_all mark_order (map (mark_on recall) nodes.now) all.old.keys) }
{
    for node in nodes {
        all.insert(mark_on(recall, *node))?;
    }
    Ok(())
}

fn list_of(alloc: Global, all: &BTreeSet<Mark>) -> Result<Vec<Mark>, AllocError>
    ensures { IfOk result (λ rows. rows.items ≡ all.now.keys) }
{
    all.iter().copied().collect(alloc)
}
