//! What movements of material bring to the sublots of a plant and take from them.
#![tactic(auto)]

ghost use Rattle.std.specs.Prelude.{◌≡◌, ◌≤◌, length, pos};
ghost use Rattle.plant_base.specs.{greatest_amount};
ghost use Rattle.plant_stock.specs.Stock.{goes_to, comes_from, is_sublot_key, entering, leaving};
ghost use Rattle.plant_stock.specs.Stock.{stock, is_division, is_in_lot, entering_lot, leaving_lot};
ghost use Rattle.plant_stock.specs.Stock.{born_of, left_of, merged_total_of};

use plant_base::{Amount, GREATEST_AMOUNT, Id, Movement, MovementKind, Part, Refusal};

/// What a movement brings to a sublot and what it takes from it, each an amount or 0.
///
/// Receipts and productions bring their amount, consumptions and scrap take it, and divisions, splits and merges
/// take it from one sublot and bring it to another.
pub fn effect(movement: &Movement, lot: Id, number: u16) -> (u64, u64)
    ensures entering { result.0 ≡ entering movement.now lot number }
    ensures leaving { result.1 ≡ leaving movement.now lot number }
    ensures entering_small { result.0 ≤ greatest_amount }
    ensures leaving_small { result.1 ≤ greatest_amount }
{
    let amount = movement.amount.get();
    let entering = if is_at(target(movement), lot, number) {
        amount
    } else {
        0
    };
    let leaving = if is_at(source(movement), lot, number) {
        amount
    } else {
        0
    };
    (entering, leaving)
}

/// The stock of a sublot: what the movements brought to it less what they took from it.
#[tactic(auto, unfolding(crate::specs::Stock::entered, crate::specs::Stock::left))]
pub fn stock_of(movements: &[Movement], lot: Id, number: u16) -> i128
    ensures { result ≡ stock movements.now lot number }
{
    let mut entered: u128 = 0;
    let mut left: u128 = 0;
    for movement in movements {
        let (more, less) = effect(movement, lot, number);
        entered += u128::from(more);
        left += u128::from(less);
    }
    entered as i128 - left as i128
}

/// What came into a whole lot as it was made: the amounts that movements brought to its sublots. Divisions, which move
/// an amount within the lot, aren't counted.
#[tactic(auto, unfolding(crate::specs::Stock::born_of))]
pub fn born(movements: &[Movement], lot: Id) -> i128
    ensures { result ≡ pos (born_of movements.now lot) }
{
    let mut born: u128 = 0;
    for movement in movements {
        born += u128::from(lot_effect(movement, lot).0);
    }
    born as i128
}

/// What left a whole lot: the amounts that movements took from its sublots, divisions not counted. The lot's stock is
/// what was born less what left.
#[tactic(auto, unfolding(crate::specs::Stock::left_of))]
pub fn left(movements: &[Movement], lot: Id) -> i128
    ensures { result ≡ pos (left_of movements.now lot) }
{
    let mut left: u128 = 0;
    for movement in movements {
        left += u128::from(lot_effect(movement, lot).1);
    }
    left as i128
}

/// The amount of a lot that is merged from these parts, of which there is at least one. `TooMuch` exactly where it is
/// above the greatest amount.
pub fn merged_total(parts: &[Part]) -> Result<Amount, Refusal>
    requires { 1 ≤ length parts.now }
    ensures { result ≡ merged_total_of parts.now }
{
    let mut total: u128 = 0;
    for part in parts {
        total += u128::from(part.amount.get());
    }
    if total > u128::from(GREATEST_AMOUNT) {
        return Err(Refusal::TooMuch);
    }
    Amount::new(total as u64).ok_or(Refusal::TooMuch)
}

// What a movement brings to a lot and what it takes from it, divisions not counted.
fn lot_effect(movement: &Movement, lot: Id) -> (u64, u64)
    ensures entering { result.0 ≡ entering_lot movement.now lot }
    ensures leaving { result.1 ≡ leaving_lot movement.now lot }
    ensures entering_small { result.0 ≤ greatest_amount }
    ensures leaving_small { result.1 ≤ greatest_amount }
{
    if is_division(movement.kind) {
        return (0, 0);
    }
    let amount = movement.amount.get();
    let entering = if is_in_lot(target(movement), lot) {
        amount
    } else {
        0
    };
    let leaving = if is_in_lot(source(movement), lot) {
        amount
    } else {
        0
    };
    (entering, leaving)
}

fn is_division(kind: MovementKind) -> bool
    ensures { result ≡ is_division kind }
{
    match kind {
        MovementKind::Divided { .. } => true,
        _ => false,
    }
}

fn is_in_lot(place: Option<(Id, u16)>, lot: Id) -> bool
    ensures { result ≡ is_in_lot place lot }
{
    match place {
        None => false,
        Some((its_lot, _)) => its_lot == lot,
    }
}

/// The sublot that the movement brings its amount to, where it brings it to one.
/// `None` of one that is consumed or scrapped.
pub fn target(movement: &Movement) -> Option<(Id, u16)>
    ensures { result ≡ goes_to movement.now.kind movement.now.lot movement.now.sub }
{
    match movement.kind {
        MovementKind::Received | MovementKind::Produced { .. } => Some((
            movement.lot,
            movement.sub,
        )),
        MovementKind::Consumed { .. } | MovementKind::Scrapped => None,
        MovementKind::Divided { to } => Some((movement.lot, to)),
        MovementKind::Split { to } | MovementKind::Merged { to } => Some((to, 0)),
    }
}

/// The sublot that the movement takes its amount from, where it takes it from one.
/// `None` of one that is received or produced.
pub fn source(movement: &Movement) -> Option<(Id, u16)>
    ensures { result ≡ comes_from movement.now.kind movement.now.lot movement.now.sub }
{
    match movement.kind {
        MovementKind::Received | MovementKind::Produced { .. } => None,
        _ => Some((movement.lot, movement.sub)),
    }
}

fn is_at(place: Option<(Id, u16)>, lot: Id, number: u16) -> bool
    ensures { result ≡ is_sublot_key place lot number }
{
    match place {
        None => false,
        Some((its_lot, its_number)) => its_lot == lot && its_number == number,
    }
}
