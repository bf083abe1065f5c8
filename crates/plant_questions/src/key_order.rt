//! Rows in the order of their keys.
ghost use Rattle.std.specs.Prelude.{◌≡◌};

use plant_base::{Hold, Job, Movement, Recipe};
use std::cmp::Ordering;

/// A row of a list that has an order.
pub trait HasKeyOrder {
    ghost use Rattle.std.specs.Prelude.{◌≡◌};
    ghost use Rattle.std.specs.declared.cmp.Ordering.{Ordering};

    /// The order of the keys.
    ghost order: { Self → Self → Ordering };

    /// Compares the keys.
    fn compare(&self, other: &Self) -> Ordering
        ensures { result ≡ order self.now other.now };
}

impl HasKeyOrder for Recipe {
    ghost use Rattle.plant_base.specs.{recipe_order};

    ghost order = { recipe_order };

    fn compare(&self, other: &Self) -> Ordering {
        self.header
            .recipe
            .cmp(&other.header.recipe)
            .then(self.header.version.cmp(&other.header.version))
    }
}

/// Orders by their due dates, and those of one day by their ids.
impl HasKeyOrder for Job {
    ghost use Rattle.plant_questions.specs.Worklists.{due_order};

    ghost order = { due_order };

    fn compare(&self, other: &Self) -> Ordering {
        self.order
            .due
            .cmp(&other.order.due)
            .then(self.order.order.cmp(&other.order.order))
    }
}

impl HasKeyOrder for Hold {
    ghost use Rattle.plant_base.specs.{hold_order};

    ghost order = { hold_order };

    fn compare(&self, other: &Self) -> Ordering {
        self.lot.cmp(&other.lot).then(self.id.cmp(&other.id))
    }
}

impl HasKeyOrder for Movement {
    ghost use Rattle.plant_base.specs.{movement_order};

    ghost order = { movement_order };

    fn compare(&self, other: &Self) -> Ordering {
        self.seq.cmp(&other.seq).then(self.line.cmp(&other.line))
    }
}
