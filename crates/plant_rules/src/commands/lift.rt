ghost use Rattle.std.specs.Prelude.{◌≡◌, IfOk};
ghost use Rattle.plant_base.specs.{State, recall_at};
ghost use Rattle.plant_trace.specs.ReadOnly.{ReadOnly};
ghost use Rattle.plant_rules.specs.Recalling.{wrong_lift, lift, lifted};
ghost use Rattle.plant_view.specs.{PutsOneBatch, Decides};
ghost use Rattle.plant_view.specs.DecisionInvariant.{DecisionInvariant};

use plant_base::{GREATEST_SEQ, LiftRecall, Lifting, Recall, Refusal, Stamp};
use plant_view::{Decision, RowChange, View, ViewFault, changes, lookup, meta_after};
use std::alloc::{AllocError, Global};

pub(crate) fn decide_lift<V: View>(
    alloc: Global,
    view: &mut V,
    seq: u64,
    stamp: &Stamp,
    c: &LiftRecall,
) -> Result<Decision, ViewFault<V::Fault>>
    requires seq { V.honest view.old → seq ≡ (V.state view.old).seq }
    requires sound { V.honest view.old → DecisionInvariant (V.state view.old) }
    ensures decides { ReadOnly V.Edges view.old view.new
        (IfOk result (Decides (wrong_lift (V.state view.old) c.now) (V.state view.old)
        (lift (V.state view.old) stamp.now c.now))) }
    ensures one_batch { IfOk result PutsOneBatch }
{
    let known = lookup::recall(view, c.recall)?;
    Ok(decide_found(alloc, seq, stamp, c, known)?)
}

// Decides from the recall that was found.
fn decide_found(
    alloc: Global,
    seq: u64,
    stamp: &Stamp,
    c: &LiftRecall,
    known: Option<Recall>,
) -> Result<Decision, AllocError>
    ensures decides { (s : State) → DecisionInvariant s → seq ≡ s.seq → known ≡ recall_at s c.now.recall
        → IfOk result (Decides (wrong_lift s c.now) s (lift s stamp.now c.now)) }
    ensures one_batch { IfOk result PutsOneBatch }
{
    let Some(recall) = known else {
        return Ok(Decision::Refused(Refusal::UnknownRecall));
    };
    if seq >= GREATEST_SEQ {
        return Ok(Decision::Refused(Refusal::TooMany));
    }
    if !recall.is_open() {
        return Ok(Decision::Refused(Refusal::RecallLifted));
    }
    let away = RowChange::Unmark { recall: recall.id };
    let rows = changes(
        alloc,
        [
            meta_after(seq, stamp),
            RowChange::Recall(lifted(stamp, &recall)),
            away,
        ],
    )?;
    Ok(Decision::Change(rows))
}

fn lifted(stamp: &Stamp, recall: &Recall) -> Recall
    ensures { result ≡ lifted stamp.now recall.now }
{
    let lifting = Lifting {
        at: stamp.at,
        by: stamp.by,
        note: stamp.note,
    };
    Recall {
        lifting: Some(lifting),
        ..*recall
    }
}
