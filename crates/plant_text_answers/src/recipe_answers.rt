//! The texts of answers about definitions, recipes and the control recipes of batches.
ghost use Rattle.std.specs.Prelude.{◌≡◌, IfOk};
ghost use Rattle.serde_json.specs.View.{view};
ghost use Rattle.plant_text_answers.specs.RecipeAnswers.{definition_data, material_data};
ghost use Rattle.plant_text_answers.specs.RecipeAnswers.{booked_data, parameter_data, phase_data};
ghost use Rattle.plant_text_answers.specs.RecipeAnswers.{recipe_line_item, booked_line_item};
ghost use Rattle.plant_text_answers.specs.RecipeAnswers.{recipe_data, batch_lines_data};

use crate::list_answers::rows_value;
use crate::listed_rows::Shown;
use crate::parts::unit_value;
use plant_base::{Amount, Definition, Id, RecipeLine, Text, Unit};
use plant_questions::{BatchLines, BookedLine, RecipeAnswer, RecipeLineAnswer};
use serde_json::{Value, json};
use std::alloc::{AllocError, Global};

/// What is shown of a definition.
pub(crate) fn definition_value(alloc: Global, definition: &Definition) -> Result<Value, AllocError>
    ensures { IfOk result (λ v. view v ≡ definition_data definition.now) }
{
    json!(in alloc; {
        "class": (definition.class.as_str()), "def": (definition.id.as_str()), "name": (definition.name.as_str()),
        "unit": (definition.unit.as_str())
    })
}

/// What is shown of an input or an output of a recipe.
fn material_value(
    alloc: Global,
    kind: &str,
    def: Id,
    amount: Amount,
    unit: Option<Unit>,
) -> Result<Value, AllocError>
    ensures { IfOk result (λ v. view v ≡ material_data kind.now def amount unit) }
{
    let unit = unit_value(alloc, unit)?;
    json!(in alloc; {"def": (def.as_str()), "kind": kind, "qty": (amount.get()), "unit": unit})
}

/// What is shown of an input or an output of a control recipe.
fn booked_value(
    alloc: Global,
    kind: &str,
    def: Id,
    asked: Amount,
    line: &BookedLine,
) -> Result<Value, AllocError>
    ensures { IfOk result (λ v. view v ≡ booked_data kind.now def asked line.now) }
{
    let unit = unit_value(alloc, line.measured.unit)?;
    json!(in alloc; {
        "asked": (asked.get()), "booked": (line.booked), "def": (def.as_str()), "kind": kind, "unit": unit
    })
}

fn parameter_value(alloc: Global, name: Id, value: Text) -> Result<Value, AllocError>
    ensures { IfOk result (λ v. view v ≡ parameter_data name value) }
{
    json!(in alloc; {"kind": "par", "name": (name.as_str()), "value": (value.as_str())})
}

fn phase_value(
    alloc: Global,
    unit_procedure: Id,
    operation: Id,
    phase: Id,
) -> Result<Value, AllocError>
    ensures { IfOk result (λ v. view v ≡ phase_data unit_procedure operation phase) }
{
    json!(in alloc; {
        "kind": "phase", "oper": (operation.as_str()), "phase": (phase.as_str()), "unit": (unit_procedure.as_str())
    })
}

impl Shown for RecipeLineAnswer {
    ghost shows = { recipe_line_item };

    fn value(&self, alloc: Global) -> Result<Value, AllocError> {
        match self.line {
            RecipeLine::In { def, amount } => material_value(alloc, "in", def, amount, self.unit),
            RecipeLine::Out { def, amount } => material_value(alloc, "out", def, amount, self.unit),
            RecipeLine::Parameter { name, value } => parameter_value(alloc, name, value),
            RecipeLine::Phase {
                unit_procedure,
                operation,
                phase,
            } => phase_value(alloc, unit_procedure, operation, phase),
        }
    }
}

impl Shown for BookedLine {
    ghost shows = { booked_line_item };

    fn value(&self, alloc: Global) -> Result<Value, AllocError> {
        match self.measured.line.line {
            RecipeLine::In { def, amount } => booked_value(alloc, "in", def, amount, self),
            RecipeLine::Out { def, amount } => booked_value(alloc, "out", def, amount, self),
            RecipeLine::Parameter { name, value } => parameter_value(alloc, name, value),
            RecipeLine::Phase {
                unit_procedure,
                operation,
                phase,
            } => phase_value(alloc, unit_procedure, operation, phase),
        }
    }
}

/// What is shown of a version of a recipe.
pub(crate) fn recipe_value(alloc: Global, answer: &RecipeAnswer) -> Result<Value, AllocError>
    ensures { IfOk result (λ v. view v ≡ recipe_data answer.now) }
{
    let header = &answer.recipe.header;
    let lines = rows_value(alloc, answer.lines.as_slice())?;
    let unit = unit_value(alloc, answer.unit)?;
    json!(in alloc; {
        "base": (header.base.get()), "lines": lines, "max": (header.greatest.get()), "min": (header.least.get()),
        "product": (header.product.as_str()), "recipe": (header.recipe.as_str()), "state": (answer.recipe.state.name()),
        "title": (header.title.as_str()), "unit": unit, "version": (header.version)
    })
}

/// What is shown of the control recipe of a batch.
pub(crate) fn batch_lines_value(alloc: Global, answer: &BatchLines) -> Result<Value, AllocError>
    ensures { IfOk result (λ v. view v ≡ batch_lines_data answer.now) }
{
    let lines = rows_value(alloc, answer.lines.as_slice())?;
    json!(in alloc; {"batch": (answer.batch.as_str()), "lines": lines})
}
