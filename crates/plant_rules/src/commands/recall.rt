ghost use Rattle.std.specs.Prelude.{◌≡◌, ◌<◌, true, IfOk};
ghost use Rattle.plant_base.specs.{greatest_seq, State, lot_at, recall_at};
ghost use Rattle.plant_trace.specs.{Lists, IsRecalled};
ghost use Rattle.plant_trace.specs.ReadOnly.{ReadOnly};
ghost use Rattle.plant_rules.specs.Recalling.{may_open, wrong_recall, recall, recall_rows, opened};
ghost use Rattle.plant_view.specs.{edges_of, mark_on, PutsOneBatch, Decides};
ghost use Rattle.plant_view.specs.DecisionInvariant.{DecisionInvariant};

use plant_base::{GREATEST_SEQ, Id, Items, Lot, Recall, RecallLot, Refusal, Stamp};
use plant_trace::{Node, reached};
use plant_view::{Decision, RowChange, RowParts, View, ViewFault, lookup, mark_on, meta_after};
use std::alloc::{AllocError, Global};

pub(crate) fn decide_recall<V: View>(
    alloc: Global,
    view: &mut V,
    seq: u64,
    stamp: &Stamp,
    c: &RecallLot,
) -> Result<Decision, ViewFault<V::Fault>>
    requires seq { V.honest view.old → seq ≡ (V.state view.old).seq }
    requires sound { V.honest view.old → DecisionInvariant (V.state view.old) }
    ensures decides { ReadOnly V.Edges view.old view.new
        (IfOk result (Decides (wrong_recall (V.state view.old) c.now) (V.state view.old)
        (recall (V.state view.old) stamp.now c.now))) }
    ensures one_batch { IfOk result PutsOneBatch }
{
    let lot = lookup::lot(view, c.lot)?;
    let known = lookup::recall(view, c.recall)?;
    let nodes = nodes_reached(alloc, view, c.lot, may_open(seq, &lot, &known))?;
    Ok(decide_found(alloc, seq, stamp, c, lot, known, nodes.as_slice())?)
}

// Whether nothing bars the recall.
fn may_open(seq: u64, lot: &Option<Lot>, known: &Option<Recall>) -> bool
    ensures { result ≡ may_open seq lot.now known.now }
{
    lot.is_some() && known.is_none() && seq < GREATEST_SEQ
}

// What a recall of the lot reaches, which is searched only where that is wanted.
fn nodes_reached<V: View>(
    alloc: Global,
    view: &mut V,
    lot: Id,
    is_wanted: bool,
) -> Result<Vec<Node>, ViewFault<V::Fault>>
    ensures { ReadOnly V.Edges view.old view.new
        (IfOk result (λ nodes. is_wanted ≡ true
        → Lists (IsRecalled (edges_of (V.state view.old)) lot) nodes.items)) }
{
    if !is_wanted {
        return Ok(Vec::new(alloc));
    }
    match reached(alloc, view, lot) {
        Ok(nodes) => Ok(nodes),
        Err(fault) => Err(ViewFault::from(fault)),
    }
}

// Decides from what was found.
fn decide_found(
    alloc: Global,
    seq: u64,
    stamp: &Stamp,
    c: &RecallLot,
    lot: Option<Lot>,
    known: Option<Recall>,
    nodes: &[Node],
) -> Result<Decision, AllocError>
    ensures decides { (s : State) → DecisionInvariant s → seq ≡ s.seq → lot ≡ lot_at s c.now.lot
        → known ≡ recall_at s c.now.recall
        → (may_open seq lot known ≡ true → Lists (IsRecalled (edges_of s) c.now.lot) nodes.now)
        → IfOk result (Decides (wrong_recall s c.now) s (recall s stamp.now c.now)) }
    ensures one_batch { IfOk result PutsOneBatch }
{
    if lot.is_none() {
        return Ok(Decision::Refused(Refusal::UnknownLot));
    }
    if known.is_some() {
        return Ok(Decision::Refused(Refusal::Exists));
    }
    if seq >= GREATEST_SEQ {
        return Ok(Decision::Refused(Refusal::TooMany));
    }
    let rows = recall_rows(alloc, seq, stamp, c, nodes)?;
    Ok(Decision::Change(rows))
}

fn recall_rows(
    alloc: Global,
    seq: u64,
    stamp: &Stamp,
    c: &RecallLot,
    nodes: &[Node],
) -> Result<Items<RowChange>, AllocError>
    requires { seq < greatest_seq }
    ensures { IfOk result (λ rows. rows ≡ recall_rows seq stamp.now c.now nodes.now) }
{
    let _: Option<RowParts> = None;
    let mut rows = Vec::from_array(
        alloc,
        [meta_after(seq, stamp), RowChange::Recall(opened(stamp, c))],
    )?;
    for node in nodes {
        rows.push(RowChange::Mark(mark_on(c.recall, *node)))?;
    }
    Ok(Items::new(rows))
}

fn opened(stamp: &Stamp, c: &RecallLot) -> Recall
    ensures { result ≡ opened stamp.now c.now }
{
    Recall {
        id: c.recall,
        lot: c.lot,
        at: stamp.at,
        by: stamp.by,
        note: stamp.note,
        lifting: None,
    }
}
