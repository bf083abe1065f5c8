//! What is shown of a row in a page of a worklist.
ghost use Rattle.std.specs.Prelude.{◌≡◌};
ghost use Rattle.plant_view.specs.{batch_by};
ghost use Rattle.plant_text_answers.specs.ListAnswers.{order_item, lot_item, hold_item};
ghost use Rattle.plant_text_answers.specs.ListAnswers.{recall_item, class_item, definition_item};
ghost use Rattle.plant_text_answers.specs.ListAnswers.{recipe_item, movement_item};
ghost use Rattle.plant_text_answers.specs.ListAnswers.{movement_kind_name, other_sub};

use crate::list_answers::rows_value;
use crate::parts::{id_value, number_value};
use plant_base::{Class, Definition, Hold, Id, Job, Movement, MovementKind, Recall, Recipe};
use plant_questions::{StandingLot, other_lot};
use serde_json::{Value, json};
use std::alloc::{AllocError, Global};

/// A row that is shown in a list.
pub(crate) trait Shown {
    ghost use Rattle.std.specs.Prelude.{◌≡◌, IfOk};
    ghost use Rattle.serde_json.specs.Data.{Data};
    ghost use Rattle.serde_json.specs.View.{view};

    // What is shown of it.
    ghost shows: { Self → Data };

    /// What is shown of it, as a value. The only error is that memory was refused.
    fn value(&self, alloc: Global) -> Result<Value, AllocError>
        ensures { IfOk result (λ v. view v ≡ shows self.now) };
}

impl Shown for Job {
    ghost shows = { order_item };

    fn value(&self, alloc: Global) -> Result<Value, AllocError> {
        let order = self.order;
        json!(in alloc; {
            "due": (order.due.as_str()), "order": (order.order.as_str()), "priority": (order.priority),
            "recipe": (order.recipe.as_str()), "size": (order.size.get()), "version": (order.version)
        })
    }
}

impl Shown for StandingLot {
    ghost shows = { lot_item };

    fn value(&self, alloc: Global) -> Result<Value, AllocError> {
        let known = &self.known;
        let sublots = rows_value(alloc, known.sublots.as_slice())?;
        json!(in alloc; {
            "held": (known.held), "lot": (known.lot.as_str()), "recalled": (self.recalled), "stock": (known.stock),
            "sublots": sublots
        })
    }
}

impl Shown for Hold {
    ghost shows = { hold_item };

    fn value(&self, alloc: Global) -> Result<Value, AllocError> {
        json!(in alloc; {
            "at": (self.at.get()), "by": (self.by.as_str()), "hold": (self.id.as_str()), "note": (self.note.as_str())
        })
    }
}

impl Shown for Recall {
    ghost shows = { recall_item };

    fn value(&self, alloc: Global) -> Result<Value, AllocError> {
        json!(in alloc; {
            "at": (self.at.get()), "by": (self.by.as_str()), "lot": (self.lot.as_str()), "note": (self.note.as_str()),
            "recall": (self.id.as_str())
        })
    }
}

impl Shown for Class {
    ghost shows = { class_item };

    fn value(&self, alloc: Global) -> Result<Value, AllocError> {
        json!(in alloc; {"class": (self.id.as_str()), "name": (self.name.as_str())})
    }
}

impl Shown for Definition {
    ghost shows = { definition_item };

    fn value(&self, alloc: Global) -> Result<Value, AllocError> {
        json!(in alloc; {
            "def": (self.id.as_str()), "name": (self.name.as_str()), "unit": (self.unit.as_str())
        })
    }
}

impl Shown for Recipe {
    ghost shows = { recipe_item };

    fn value(&self, alloc: Global) -> Result<Value, AllocError> {
        let header = &self.header;
        json!(in alloc; {
            "base": (header.base.get()), "max": (header.greatest.get()), "min": (header.least.get()),
            "product": (header.product.as_str()), "recipe": (header.recipe.as_str()), "title": (header.title.as_str()),
            "version": (header.version)
        })
    }
}

/// The word of what a movement does.
fn movement_kind_name(kind: MovementKind) -> &'static str
    ensures { result.now ≡ movement_kind_name kind }
{
    match kind {
        MovementKind::Received => "received",
        MovementKind::Consumed { .. } => "consumed",
        MovementKind::Produced { .. } => "produced",
        MovementKind::Scrapped => "scrapped",
        MovementKind::Divided { .. } => "divided",
        MovementKind::Split { .. } => "split",
        MovementKind::Merged { .. } => "merged",
    }
}

/// The batch that a movement is of.
fn batch_of(kind: MovementKind) -> Option<Id>
    ensures { result ≡ batch_by kind }
{
    match kind {
        MovementKind::Consumed { batch } | MovementKind::Produced { batch } => Some(batch),
        _ => None,
    }
}

/// The sublot that a movement brings its amount to from another one.
fn other_sub(kind: MovementKind) -> Option<u64>
    ensures { result ≡ other_sub kind }
{
    match kind {
        MovementKind::Divided { to } => Some(u64::from(to)),
        MovementKind::Split { .. } | MovementKind::Merged { .. } => Some(0),
        _ => None,
    }
}

impl Shown for Movement {
    ghost shows = { movement_item };

    fn value(&self, alloc: Global) -> Result<Value, AllocError> {
        let batch = id_value(alloc, batch_of(self.kind))?;
        let to = id_value(alloc, other_lot(self.kind, self.lot))?;
        let to_sub = number_value(alloc, other_sub(self.kind))?;
        json!(in alloc; {
            "amount": (self.amount.get()), "at": (self.at.get()), "batch": batch, "by": (self.by.as_str()),
            "kind": (movement_kind_name(self.kind)), "line": (self.line), "lot": (self.lot.as_str()), "note": (self.note.as_str()),
            "seq": (self.seq), "sub": (self.sub), "to": to, "to_sub": to_sub
        })
    }
}
