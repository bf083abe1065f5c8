// The keys of the rows and of the nodes.
use crate::key_order::HasKeyOrder;
use crate::sorted::HasKey;
use plant_base::{Batch, ControlLine, Hold, Job, MasterLine, Place, Receipt, Recipe};
use plant_trace::Node;
use std::cmp::Ordering;

impl HasKey for Recipe {
    ghost use Rattle.plant_base.specs.PlantState.{recipe_order};

    ghost order = { recipe_order };

    fn compare(&self, other: &Self) -> Ordering {
        HasKeyOrder::compare(self, other)
    }
}

impl HasKey for MasterLine {
    ghost use Rattle.plant_base.specs.PlantState.{master_line_order};

    ghost order = { master_line_order };

    fn compare(&self, other: &Self) -> Ordering {
        self.recipe
            .cmp(&other.recipe)
            .then(self.version.cmp(&other.version))
            .then(self.number.cmp(&other.number))
    }
}

impl HasKey for Batch {
    ghost use Rattle.plant_base.specs.PlantState.{batch_order};

    ghost order = { batch_order };

    fn compare(&self, other: &Self) -> Ordering {
        self.id.cmp(&other.id)
    }
}

impl HasKey for ControlLine {
    ghost use Rattle.plant_base.specs.PlantState.{control_line_order};

    ghost order = { control_line_order };

    fn compare(&self, other: &Self) -> Ordering {
        self.batch
            .cmp(&other.batch)
            .then(self.number.cmp(&other.number))
    }
}

impl HasKey for Place {
    ghost use Rattle.plant_base.specs.PlantState.{place_order};

    ghost order = { place_order };

    fn compare(&self, other: &Self) -> Ordering {
        self.lot
            .cmp(&other.lot)
            .then(self.number.cmp(&other.number))
    }
}

impl HasKey for Hold {
    ghost use Rattle.plant_base.specs.PlantState.{hold_order};

    ghost order = { hold_order };

    fn compare(&self, other: &Self) -> Ordering {
        self.lot.cmp(&other.lot).then(self.id.cmp(&other.id))
    }
}

impl HasKey for Node {
    ghost use Rattle.plant_trace.specs.Nodes.{node_cmp};

    ghost order = { node_cmp };

    fn compare(&self, other: &Node) -> Ordering {
        self.cmp(other)
    }
}

/// An order, by its due date and then by its id.
#[derive(Drop)]
pub struct ByDue(pub Job);

impl HasKey for ByDue {
    ghost use Rattle.plant_questions.specs.Worklists.{due_order};

    ghost order = { λ a b. due_order a.0 b.0 };

    fn compare(&self, other: &Self) -> Ordering {
        HasKeyOrder::compare(&self.0, &other.0)
    }
}

/// A receipt, by the number of its command.
#[derive(Drop)]
pub struct ByNumber(pub Receipt);

impl HasKey for ByNumber {
    ghost use Rattle.plant_questions.specs.Worklists.{number_order};

    ghost order = { λ a b. number_order a.0 b.0 };

    fn compare(&self, other: &Self) -> Ordering {
        self.0.seq.cmp(&other.0.seq)
    }
}
