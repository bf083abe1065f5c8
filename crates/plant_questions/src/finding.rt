//! Ids that begin with another.
ghost use Rattle.std.specs.Prelude.{◌≡◌, IfOk};
ghost use Rattle.plant_questions.specs.Finding.{begins_with, first_begun};

use plant_base::{Id, Items};
use std::alloc::{AllocError, Global};

/// No more ids of a kind are found.
pub const MOST_FOUND: u8 = 20;

/// Of each kind of thing the first ids that begin with another, that one among them: at most [`MOST_FOUND`], ascending.
#[derive(Drop)]
pub struct FoundIds {
    /// Batches.
    pub batches: Items<Id>,
    /// Classes.
    pub classes: Items<Id>,
    /// Definitions.
    pub definitions: Items<Id>,
    /// Lots.
    pub lots: Items<Id>,
    /// Orders.
    pub orders: Items<Id>,
    /// Recalls.
    pub recalls: Items<Id>,
    /// Recipes, each once, whatever its versions.
    pub recipes: Items<Id>,
}

/// Whether an id begins with this one, or is it.
pub fn begins_with(beginning: &Id, id: &Id) -> bool
    ensures { result ≡ begins_with beginning.now id.now }
{
    id.as_bytes().starts_with(beginning.as_bytes())
}

/// The first of these that begin so, in their order.
/// The only error is that memory was refused.
pub fn first_begun(alloc: Global, beginning: Id, ids: &[Id]) -> Result<Vec<Id>, AllocError>
    ensures { IfOk result (λ found. found.items ≡ first_begun beginning ids.now) }
{
    ids.iter()
        .copied()
        .filter(|id| begins_with(&beginning, id))
        .take(usize::from(MOST_FOUND))
        .collect(alloc)
}
