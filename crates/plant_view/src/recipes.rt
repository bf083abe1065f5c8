//! What the lines of a recipe say, and its sizes.
ghost use Rattle.std.specs.Prelude.{◌≡◌, IfOk, map};
ghost use Rattle.plant_view.specs.Materials.{is_taken, is_made};
ghost use Rattle.plant_view.specs.Production.{is_size_of_recipe};

use plant_base::{Amount, ControlLine, Id, MasterLine, Recipe, RecipeLine};
use plant_recipe::{is_input_of, is_output_of, is_size_of};
use std::alloc::{AllocError, Global};

/// Whether the recipe is there with the size among its sizes.
pub fn is_size_of_recipe(recipe: Option<Recipe>, size: Amount) -> bool
    ensures { result ≡ is_size_of_recipe recipe size }
{
    match recipe {
        None => false,
        Some(recipe) => is_size_of(&recipe.header, size),
    }
}

/// Whether some in line of a control recipe is of this definition.
pub fn is_taken(lines: &[ControlLine], def: Id) -> bool
    ensures { result ≡ is_taken lines.now def }
{
    lines.iter().any(|l| is_input_of(def, l.line))
}

/// Whether some out line of a control recipe is of this definition.
pub fn is_made(lines: &[ControlLine], def: Id) -> bool
    ensures { result ≡ is_made lines.now def }
{
    lines.iter().any(|l| is_output_of(def, l.line))
}

/// The lines of the rows. The only error is that memory was refused.
pub fn lines_in(alloc: Global, rows: &[MasterLine]) -> Result<Vec<RecipeLine>, AllocError>
    ensures { IfOk result (λ lines. lines.items ≡ map (λ r. r.line) rows.now) }
{
    rows.iter().map(|r| r.line).collect(alloc)
}
