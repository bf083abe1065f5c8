//! Which part is the cause that a merge is refused.
ghost use Rattle.std.specs.Prelude.{◌≡◌, ◌≤◌, ℕ, List, IfOk, length, not};
ghost use Rattle.plant_base.specs.{State, same};
ghost use Rattle.plant_trace.specs.ReadOnly.{ReadOnly};
ghost use Rattle.plant_view.specs.DecisionInvariant.{DecisionInvariant};
ghost use Rattle.plant_view.specs.{sublot_standing, IsSublotOf};
ghost use Rattle.plant_rules.specs.Merging.{def_of_parts};
ghost use Rattle.plant_rules.specs.Splitting.{def_of};
ghost use Rattle.plant_rules.specs.Causes.{first_failing, is_bad_part, is_missing, is_other};
ghost use Rattle.plant_rules.specs.Causes.{is_short_of};

use plant_base::{Lot, Part, Refusal, Sublot};
use plant_view::{View, ViewFault, lookup};

// The number, counted from 1, of the first part that fails the condition which the refusal names.
pub(crate) fn bad_part<V: View>(
    view: &mut V,
    parts: &[Part],
    refusal: Refusal,
) -> Result<Option<usize>, ViewFault<V::Fault>>
    ensures { ReadOnly V.Edges view.old view.new
        (DecisionInvariant (V.state view.old) → IfOk result (λ item. item
        ≡ first_failing (is_bad_part (V.state view.old) parts.now refusal) parts.now)) }
{
    for (index, part) in parts.iter().enumerate() {
        if is_bad_part(view, parts, part, refusal)? {
            return Ok(Some(index + 1));
        }
    }
    Ok(None)
}

fn is_bad_part<V: View>(
    view: &mut V,
    parts: &[Part],
    part: &Part,
    refusal: Refusal,
) -> Result<bool, ViewFault<V::Fault>>
    requires { 1 ≤ length parts.now }
    ensures { ReadOnly V.Edges view.old view.new
        (DecisionInvariant (V.state view.old)
        → IfOk result (λ bad. bad ≡ is_bad_part (V.state view.old) parts.now refusal part.now)) }
{
    match refusal {
        Refusal::UnknownLot | Refusal::UnknownSublot => is_missing(view, part),
        Refusal::TooLittle => is_short_of(view, part),
        Refusal::Held => lookup::is_held(view, part.lot),
        Refusal::MixedMaterials => is_other(view, parts, part),
        Refusal::Recalled => lookup::is_blocked(view, part.lot),
        _ => Ok(false),
    }
}

fn is_missing<V: View>(view: &mut V, part: &Part) -> Result<bool, ViewFault<V::Fault>>
    ensures { ReadOnly V.Edges view.old view.new
        (DecisionInvariant (V.state view.old)
        → IfOk result (λ missing. missing ≡ is_missing (V.state view.old) part.now)) }
{
    let lot = lookup::lot(view, part.lot)?;
    let sublot = lookup::sublot(view, part.lot, part.sub)?;
    Ok(lot.is_none() || sublot.is_none())
}

fn is_short_of<V: View>(view: &mut V, part: &Part) -> Result<bool, ViewFault<V::Fault>>
    ensures { ReadOnly V.Edges view.old view.new
        (DecisionInvariant (V.state view.old)
        → IfOk result (λ short. short ≡ is_short_of (V.state view.old) part.now)) }
{
    let sublot = lookup::sublot(view, part.lot, part.sub)?;
    Ok(stock_in(sublot) < part.amount.get())
}

// The stock of a sublot, and 0 where it isn't there.
fn stock_in(sublot: Option<Sublot>) -> u64
    ensures { (s : State) (lot : List ℕ) (number : ℕ) → DecisionInvariant s
        → IsSublotOf s lot number sublot → result ≡ sublot_standing s lot number }
{
    match sublot {
        Some(sublot) => sublot.stock,
        None => 0,
    }
}

fn is_other<V: View>(view: &mut V, parts: &[Part], part: &Part) -> Result<bool, ViewFault<V::Fault>>
    requires { 1 ≤ length parts.now }
    ensures { ReadOnly V.Edges view.old view.new
        (IfOk result (λ other. other ≡ is_other (V.state view.old) parts.now part.now)) }
{
    let first = lookup::lot(view, parts[0].lot)?;
    let lot = lookup::lot(view, part.lot)?;
    Ok(are_apart(lot, first))
}

// Whether the lots, as far as they are there, are of different definitions.
fn are_apart(lot: Option<Lot>, other: Option<Lot>) -> bool
    ensures { result ≡ not (same (def_of lot) (def_of other)) }
{
    match (lot, other) {
        (Some(lot), Some(other)) => lot.def != other.def,
        (None, None) => false,
        (Some(_), None) | (None, Some(_)) => true,
    }
}
