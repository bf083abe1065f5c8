//! The texts of answers about batches.
ghost use Rattle.std.specs.Prelude.{◌≡◌, IfOk};
ghost use Rattle.serde_json.specs.Data.{array};
ghost use Rattle.serde_json.specs.View.{view};
ghost use Rattle.plant_text_answers.specs.BatchAnswers.{consumed_data, produced_data, booking_data};
ghost use Rattle.plant_text_answers.specs.BatchAnswers.{bookings_data, batch_data};

use plant_questions::{BatchView, Booking, phases_in};
use serde_json::{Value, json};
use std::alloc::{AllocError, Global};

fn consumed_value(alloc: Global, booking: &Booking) -> Result<Value, AllocError>
    ensures { IfOk result (λ v. view v ≡ consumed_data booking.now) }
{
    json!(in alloc; {
        "amount": (booking.amount.get()), "def": (booking.def.as_str()), "lot": (booking.lot.as_str()),
        "seq": (booking.seq), "sub": (booking.sub)
    })
}

fn produced_value(alloc: Global, booking: &Booking) -> Result<Value, AllocError>
    ensures { IfOk result (λ v. view v ≡ produced_data booking.now) }
{
    json!(in alloc; {
        "amount": (booking.amount.get()), "def": (booking.def.as_str()), "lot": (booking.lot.as_str()),
        "seq": (booking.seq)
    })
}

// What was taken has its sublot, what was brought has none.
fn booking_value(alloc: Global, booking: &Booking, taken: bool) -> Result<Value, AllocError>
    ensures { IfOk result (λ v. view v ≡ booking_data taken booking.now) }
{
    if taken {
        consumed_value(alloc, booking)
    } else {
        produced_value(alloc, booking)
    }
}

fn bookings_value(alloc: Global, bookings: &[Booking], taken: bool) -> Result<Value, AllocError>
    ensures { IfOk result (λ v. view v ≡ array (bookings_data taken bookings.now)) }
{
    let mut list = Vec::new(alloc);
    for booking in bookings {
        let value = booking_value(alloc, booking, taken)?;
        list.push(value)?;
    }
    Ok(Value::Array(list))
}

/// What is shown of a batch.
pub(crate) fn batch_value(alloc: Global, batch: &BatchView) -> Result<Value, AllocError>
    ensures { IfOk result (λ v. view v ≡ batch_data batch.now) }
{
    let consumed = bookings_value(alloc, batch.consumed.as_slice(), true)?;
    let produced = bookings_value(alloc, batch.produced.as_slice(), false)?;
    let phases = phases_in(batch.lines.as_slice());
    json!(in alloc; {
        "attempt": (batch.progress.attempt), "batch": (batch.batch.id.as_str()), "closed": (batch.progress.closed),
        "consumed": consumed, "next": (batch.progress.next), "order": (batch.job.order.order.as_str()),
        "phases": phases, "produced": produced, "recipe": (batch.job.order.recipe.as_str()),
        "size": (batch.job.order.size.get()), "state": (batch.progress.state.name()),
        "version": (batch.job.order.version)
    })
}
