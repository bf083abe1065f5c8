//! The laws of causes, as the contracts of functions that do nothing.

ghost use Rattle.plant_rules.specs.CauseLaws.{CausesAreTold};
ghost use Rattle.plant_rules.specs.FirstItems.{LinesAreFirst, OrdersAreFirst, PartsAreFirst};

/// A command that is refused has an item that is the cause exactly where the refusal is for one: of an import for an unknown recipe, a
/// conflict or a size; of a merge for a part that isn't there, holds too little, is held, is of another material or recalled; of a recipe
/// for a definition that a line names.
#[tactic(auto, using(crate::proofs::CausesAreReported::causes_are_told))]
pub fn causes_law()
    ensures { CausesAreTold }
{}

/// The item that is the cause is the first that fails: it is the item of its number, counted from 1, and none before it fails.
pub fn first_items_law()
    ensures orders { OrdersAreFirst }
    ensures parts { PartsAreFirst }
    ensures lines { LinesAreFirst }
{}
