//! What is shown of stock in pages: of a lot that has some, and of a definition.
ghost use Rattle.std.specs.Prelude.{◌≡◌, option_map};
ghost use Rattle.plant_text_answers.specs.ListAnswers.{stock_item, stock_row_item};

use crate::list_answers::rows_value;
use crate::listed_rows::Shown;
use crate::parts::{number_value, text_value};
use plant_base::{Movement, Text};
use plant_questions::{DefinitionStock, StockedLot};
use serde_json::{Value, json};
use std::alloc::{AllocError, Global};

/// What is shown of the booking that made a lot, nothing where none did.
#[derive(Clone, Copy)]
struct Birth {
    at: Option<u64>,
    by: Option<Text>,
    note: Option<Text>,
    seq: Option<u64>,
}

fn birth_of(born: &Option<Movement>) -> Birth
    ensures at { result.at ≡ option_map (λ m. m.at) born.now }
    ensures by { result.by ≡ option_map (λ m. m.by) born.now }
    ensures note { result.note ≡ option_map (λ m. m.note) born.now }
    ensures seq { result.seq ≡ option_map (λ m. m.seq) born.now }
{
    match born {
        None => Birth {
            at: None,
            by: None,
            note: None,
            seq: None,
        },
        Some(booking) => Birth {
            at: Some(booking.at.get()),
            by: Some(booking.by),
            note: Some(booking.note),
            seq: Some(booking.seq),
        },
    }
}

impl Shown for StockedLot {
    ghost shows = { stock_item };

    fn value(&self, alloc: Global) -> Result<Value, AllocError> {
        let known = &self.standing.known;
        let born = birth_of(&self.born);
        let at = number_value(alloc, born.at)?;
        let by = text_value(alloc, born.by)?;
        let note = text_value(alloc, born.note)?;
        let seq = number_value(alloc, born.seq)?;
        let sublots = rows_value(alloc, known.sublots.as_slice())?;
        json!(in alloc; {
            "at": at, "by": by, "held": (known.held), "lot": (known.lot.as_str()), "note": note,
            "recalled": (self.standing.recalled), "seq": seq, "stock": (known.stock), "sublots": sublots
        })
    }
}

impl Shown for DefinitionStock {
    ghost shows = { stock_row_item };

    fn value(&self, alloc: Global) -> Result<Value, AllocError> {
        let definition = &self.definition;
        json!(in alloc; {
            "def": (definition.id.as_str()), "held": (self.held), "lots": (self.lots), "name": (definition.name.as_str()),
            "recalled": (self.recalled), "unit": (definition.unit.as_str()), "usable": (self.usable)
        })
    }
}
