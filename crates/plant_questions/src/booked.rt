// What was booked of a definition.
ghost use Rattle.std.specs.Prelude.{◌≡◌, ◌≤◌};
ghost use Rattle.plant_base.specs.{greatest_amount};
ghost use Rattle.plant_questions.specs.Booked.{amount_of, booked_of};

use crate::question::Booking;
use plant_base::Id;

/// The amount of a booking, if it is one of the definition.
fn amount_of(def: Id, booking: &Booking) -> u64
    ensures value { result ≡ amount_of def booking.now }
    ensures small { result ≤ greatest_amount }
{
    if booking.def == def {
        booking.amount.get()
    } else {
        0
    }
}

/// How much of a definition was booked.
#[tactic(auto, unfolding(crate::specs::Booked::booked_of))]
pub fn booked_of(def: Id, bookings: &[Booking]) -> u128
    ensures { result ≡ booked_of def bookings.now }
{
    let mut booked: u128 = 0;
    for booking in bookings {
        booked += u128::from(amount_of(def, booking));
    }
    booked
}
