//! Laws of the keys of the tables.

ghost use Rattle.plant_invariant_tables.specs.Freshness.{InvariantImpliesKeys, StepIsFresh};

/// What the tables of valid states have, as laws about them; the function itself does nothing.
///
/// `keyed`: the rows of the tables of a valid state are in the order of their keys.
/// `fresh`: where row changes, at most one of them of a batch, make the tables after a command of those before it, each
/// event and movement that they add has a key that no row had, and each batch an order that no other batch is of.
pub fn fresh_law()
    ensures keyed { InvariantImpliesKeys }
    ensures fresh { StepIsFresh }
{}
