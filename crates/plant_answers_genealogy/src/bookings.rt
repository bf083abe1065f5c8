// What a batch took and brought.
ghost use Rattle.std.specs.Prelude.{◌≡◌, ◌++◌, IfOk, OnOk, option_to_list, sum_by};
ghost use Rattle.std.specs.List.{filter_map};
ghost use Rattle.plant_trace.specs.ReadOnly.{ReadOnly};
ghost use Rattle.plant_answers_genealogy.specs.Bookings.{AreBookingsOf};
ghost use Rattle.plant_answers_genealogy.specs.Bookings.{is_consumed_by, is_produced_by, scrapped_of};
ghost use Rattle.plant_answers_genealogy.specs.Bookings.{booking, definition_of, booking_in, consumption};
ghost use Rattle.plant_answers_genealogy.specs.Bookings.{production, booked_on};

use plant_base::{Definition, Id, Lot, Movement, MovementKind};
use plant_questions::Booking;
use plant_view::{View, ViewFault, lookup};
use std::alloc::{AllocError, Global};

// Whether what a batch took or what it brought is asked for.
#[derive(Clone, Copy)]
pub(crate) enum Side {
    Consumed,
    Produced,
}

// What a batch took and what it brought, each in its order.
#[derive(Drop)]
pub struct BatchBookings {
    pub consumed: Vec<Booking>,
    pub produced: Vec<Booking>,
}

/// What a batch took and brought.
pub fn bookings_of<V: View>(
    alloc: Global,
    view: &mut V,
    batch: Id,
) -> Result<BatchBookings, ViewFault<V::Fault>>
    ensures { ReadOnly V.Edges view.old view.new (IfOk result (AreBookingsOf (V.state view.old) batch)) }
{
    let movements = lookup::batch_movements(view, batch)?;
    let consumed = booked_by(alloc, view, Side::Consumed, batch, movements.as_slice())?;
    let produced = booked_by(alloc, view, Side::Produced, batch, movements.as_slice())?;
    Ok(BatchBookings { consumed, produced })
}

// What the batch took or brought by these movements, in their order.
fn booked_by<V: View>(
    alloc: Global,
    view: &mut V,
    side: Side,
    batch: Id,
    movements: &[Movement],
) -> Result<Vec<Booking>, ViewFault<V::Fault>>
    ensures { ReadOnly V.Edges view.old view.new
        (IfOk result (λ v. v.items
        ≡ filter_map (booked_on side (V.state view.old) batch) movements.now)) }
{
    let mut rows = Vec::new(alloc);
    for movement in movements {
        let found = booked_on(view, side, batch, movement)?;
        if push_found(&mut rows, found).is_err() {
            return Err(ViewFault::Memory);
        }
    }
    Ok(rows)
}

/// One more row at the end, where one was found.
pub(crate) fn push_found<R: Drop>(rows: &mut Vec<R>, found: Option<R>) -> Result<(), AllocError>
    ensures { OnOk result (rows.new.items ≡ rows.old.items ++ option_to_list found) }
{
    if let Some(row) = found {
        rows.push(row)?;
    }
    Ok(())
}

fn booked_on<V: View>(
    view: &mut V,
    side: Side,
    batch: Id,
    movement: &Movement,
) -> Result<Option<Booking>, ViewFault<V::Fault>>
    ensures { ReadOnly V.Edges view.old view.new
        (IfOk result (λ b. b ≡ booked_on side (V.state view.old) batch movement.now)) }
{
    match side {
        Side::Consumed => consumption(view, batch, movement),
        Side::Produced => production(view, batch, movement),
    }
}

fn consumption<V: View>(
    view: &mut V,
    batch: Id,
    movement: &Movement,
) -> Result<Option<Booking>, ViewFault<V::Fault>>
    ensures { ReadOnly V.Edges view.old view.new
        (IfOk result (λ b. b ≡ consumption (V.state view.old) batch movement.now)) }
{
    if !is_consumed_by(batch, movement.kind) {
        return Ok(None);
    }
    booking_in(view, 0, movement)
}

fn production<V: View>(
    view: &mut V,
    batch: Id,
    movement: &Movement,
) -> Result<Option<Booking>, ViewFault<V::Fault>>
    ensures { ReadOnly V.Edges view.old view.new
        (IfOk result (λ b. b ≡ production (V.state view.old) batch movement.now)) }
{
    if !is_produced_by(batch, movement.kind) {
        return Ok(None);
    }
    let scrapped = scrapped_of(view, movement.lot)?;
    booking_in(view, scrapped, movement)
}

// What was scrapped of a lot, of all its sublots.
fn scrapped_of<V: View>(view: &mut V, lot: Id) -> Result<u128, ViewFault<V::Fault>>
    ensures { ReadOnly V.Edges view.old view.new
        (IfOk result (λ n. n ≡ scrapped_of (V.state view.old).movements lot)) }
{
    let scraps = lookup::scraps(view, lot)?;
    Ok(total_of(scraps.as_slice()))
}

fn total_of(movements: &[Movement]) -> u128
    ensures { result ≡ sum_by (λ m. m.amount) movements.now }
{
    let mut total: u128 = 0;
    for movement in movements {
        total += u128::from(movement.amount.get());
    }
    total
}

// A movement with the definition of its lot.
fn booking_in<V: View>(
    view: &mut V,
    scrapped: u128,
    movement: &Movement,
) -> Result<Option<Booking>, ViewFault<V::Fault>>
    ensures { ReadOnly V.Edges view.old view.new
        (IfOk result (λ b. b ≡ booking_in (V.state view.old) scrapped movement.now)) }
{
    let lot = lookup::lot(view, movement.lot)?;
    let definition = definition_of(view, lot)?;
    Ok(definition.map(|d| booking(movement, scrapped, &d)))
}

fn definition_of<V: View>(
    view: &mut V,
    lot: Option<Lot>,
) -> Result<Option<Definition>, ViewFault<V::Fault>>
    ensures { ReadOnly V.Edges view.old view.new (IfOk result (λ d. d ≡ definition_of (V.state view.old) lot)) }
{
    match lot {
        None => Ok(None),
        Some(lot) => lookup::definition(view, lot.def),
    }
}

fn booking(movement: &Movement, scrapped: u128, definition: &Definition) -> Booking
    ensures { result ≡ booking movement.now scrapped definition.now }
{
    Booking {
        seq: movement.seq,
        lot: movement.lot,
        sub: movement.sub,
        def: definition.id,
        unit: definition.unit,
        amount: movement.amount,
        scrapped,
        at: movement.at,
        by: movement.by,
        note: movement.note,
    }
}

fn is_consumed_by(batch: Id, kind: MovementKind) -> bool
    ensures { result ≡ is_consumed_by batch kind }
{
    match kind {
        MovementKind::Consumed { batch: by } => by == batch,
        _ => false,
    }
}

fn is_produced_by(batch: Id, kind: MovementKind) -> bool
    ensures { result ≡ is_produced_by batch kind }
{
    match kind {
        MovementKind::Produced { batch: by } => by == batch,
        _ => false,
    }
}
