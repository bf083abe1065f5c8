//! Laws of the states that commands lead to.

ghost use Rattle.plant_invariant.specs.StateInvariant.{OpeningHasInvariant, StepPreservesInvariant};
ghost use Rattle.plant_invariant.specs.StateInvariant.{InvariantImpliesColumns};

/// What the opening state and each state after a command has, as laws about them; the function itself does nothing.
///
/// `opening`: the opening state is valid.
/// `step`: from a valid state each command, accepted or refused, leads to a valid one.
/// `columns`: in the tables of a valid state a batch's attempt is 1 to 99 and its next phase 1 to 128, a sublot's stock is
/// at most the greatest amount, and what was received or produced came into sublot 0.
pub fn invariant_law()
    ensures opening { OpeningHasInvariant }
    ensures step { StepPreservesInvariant }
    ensures columns { InvariantImpliesColumns }
{}
