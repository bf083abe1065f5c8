// What is answered of a lot.
ghost use Rattle.std.specs.Prelude.{◌≡◌, ◌<◌, ◌^◌, IfOk, sum_by};
ghost use Rattle.plant_base.specs.{State, lot_at};
ghost use Rattle.plant_trace.specs.ReadOnly.{ReadOnly};
ghost use Rattle.plant_view.specs.{is_held, sublots_of};
ghost use Rattle.plant_view.specs.DecisionInvariant.{DecisionInvariant};
ghost use Rattle.plant_answers_genealogy.specs.LotAnswers.{answer_lot, lot_answer};

use plant_base::{Id, Items, Lot, Refusal, Sublot};
use plant_questions::{Answer, LotAnswer};
use plant_view::{View, ViewFault, lookup};

/// What is known of a lot.
pub fn lot_answer<V: View>(view: &mut V, lot: Id) -> Result<Answer, ViewFault<V::Fault>>
    ensures { ReadOnly V.Edges view.old view.new
        (DecisionInvariant (V.state view.old)
        → IfOk result (λ a. a ≡ answer_lot (V.state view.old) (lot_at (V.state view.old) lot))) }
{
    let Some(row) = lookup::lot(view, lot)? else {
        return Ok(Answer::Unknown(Refusal::UnknownLot));
    };
    Ok(Answer::Lot(found_lot(view, row)?))
}

/// What is known of a lot that is there.
pub(crate) fn found_lot<V: View>(view: &mut V, lot: Lot) -> Result<LotAnswer, ViewFault<V::Fault>>
    ensures { ReadOnly V.Edges view.old view.new
        (DecisionInvariant (V.state view.old) → IfOk result (λ a. a ≡ lot_answer (V.state view.old) lot)) }
{
    let held = lookup::is_held(view, lot.id)?;
    let sublots = lookup::sublots(view, lot.id)?;
    Ok(answer_of_lot(lot, held, sublots))
}

/// The answer by what was found.
pub(crate) fn answer_of_lot(lot: Lot, held: bool, sublots: Vec<Sublot>) -> LotAnswer
    ensures { (s : State) → DecisionInvariant s → held ≡ is_held s lot.id → sublots.items ≡ sublots_of s lot.id
        → result ≡ lot_answer s lot }
{
    let stock = total_of(&sublots);
    LotAnswer {
        lot: lot.id,
        def: lot.def,
        held,
        stock,
        sublots: Items::new(sublots),
    }
}

// The sum of the stocks, as far as it fits. That of a lot in a consistent state does; a view that breaks its contract may
// give more.
fn total_of(rows: &[Sublot]) -> u64
    ensures { sum_by (λ r. r.stock) rows.now < 2 ^ 64 → result ≡ sum_by (λ r. r.stock) rows.now }
{
    let mut total: u128 = 0;
    for r in rows {
        total += u128::from(r.stock);
    }
    u64::try_from(total).unwrap_or(u64::MAX)
}
