//! The scaling of amounts.
ghost use Rattle.std.specs.Prelude.{◌≡◌, ◌*◌};
ghost use Rattle.plant_recipe.specs.Scaling.{scaled_of, IsRoundedHalfUp, RisesWithSize};
ghost use Rattle.plant_recipe.specs.Scaling.{KeepsAtBase};

use plant_base::Amount;

/// The amount scaled from the base to the size: amount times size over base, rounded half up.
///
/// It may be 0, and above the greatest amount. It is computed in 128 bits, and no memory is taken.
pub fn scaled(amount: Amount, size: Amount, base: Amount) -> u128
    ensures value { result ≡ scaled_of amount size base }
    ensures rounded { IsRoundedHalfUp result (amount * size) base }
{
    let amount = u128::from(amount.get());
    let size = u128::from(size.get());
    let base = u128::from(base.get());
    (2 * amount * size + base) / (2 * base)
}

/// What holds of every scaling, as a law that a proof above may cite. It does nothing when it runs.
///
/// - `rises`: a greater size scales to no less.
/// - `base`: scaled to the base itself, an amount stays what it is.
pub fn scaling_laws()
    ensures rises { RisesWithSize }
    ensures base { KeepsAtBase }
{}
