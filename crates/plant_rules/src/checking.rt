//! Commands, checked and not executed.
ghost use Rattle.std.specs.Prelude.{◌≡◌, IfOk};
ghost use Rattle.plant_base.specs.{State, Envelope};
ghost use Rattle.plant_trace.specs.ReadOnly.{ReadOnly};
ghost use Rattle.plant_view.specs.DecisionInvariant.{DecisionInvariant};
ghost use Rattle.plant_rules.specs.Step.{IsDecision};
ghost use Rattle.plant_rules.specs.Wrong.{wrong};
ghost use Rattle.plant_rules.specs.Causes.{checked};

use crate::commands::decide;
use crate::items::item_of;
use plant_base::{Envelope, Refusal};
use plant_view::{Decision, View, ViewFault};
use std::alloc::Global;

/// What would become of a command.
#[derive(Clone, Copy, Debug, PartialEq, Eq)]
pub enum Checked {
    /// It would be accepted, or answered the number under which it was accepted before.
    Accepted,
    /// It would be refused.
    Refused {
        /// The first condition that it fails.
        refusal: Refusal,
        /// The number, counted from 1, of the first item of its list that fails this condition: of an order of an import, a part of
        /// a merge or a line of a recipe. `None` where the condition isn't one of items.
        item: Option<usize>,
    },
}

/// Says what would become of a command over a view of a consistent state. Nothing is written.
///
/// `ViewFault::View` comes where the view failed, `ViewFault::Memory` where memory was refused.
pub fn check<V: View>(
    alloc: Global,
    view: &mut V,
    envelope: &Envelope,
) -> Result<Checked, ViewFault<V::Fault>>
    requires { V.honest view.old → DecisionInvariant (V.state view.old) }
    ensures { ReadOnly V.Edges view.old view.new (IfOk result (λ c. c ≡ checked (V.state view.old) envelope.now)) }
{
    let decision = decide(alloc, view, envelope)?;
    match refusal_in(&decision) {
        None => Ok(Checked::Accepted),
        Some(refusal) => refused(alloc, view, envelope, refusal),
    }
}

// The refusal of a decision, if it is one.
fn refusal_in(decision: &Decision) -> Option<Refusal>
    ensures { (s : State) (e : Envelope) → IsDecision s e decision.now → result ≡ wrong s e }
{
    match decision {
        Decision::Refused(refusal) => Some(*refusal),
        Decision::Change(_) => None,
        Decision::Repeat(_) => None,
    }
}

// The refusal of a command with the item that is its cause.
fn refused<V: View>(
    alloc: Global,
    view: &mut V,
    envelope: &Envelope,
    refusal: Refusal,
) -> Result<Checked, ViewFault<V::Fault>>
    ensures { ReadOnly V.Edges view.old view.new
        (DecisionInvariant (V.state view.old) → wrong (V.state view.old) envelope.now ≡ Some refusal
        → IfOk result (λ c. c ≡ checked (V.state view.old) envelope.now)) }
{
    let item = item_of(alloc, view, &envelope.body, refusal)?;
    Ok(Checked::Refused { refusal, item })
}
