//! Master recipes.

ghost use Rattle.std.specs.Prelude.{◌≡◌};
ghost use Rattle.plant_view.specs.{is_known};

use crate::plan_keys::{Definitions, has_definition};
use grouped_rows::Grouped;
use plant_base::RecipeLine;

/// Whether the definition that a line names is there, where it names one.
pub fn is_known(definitions: &Grouped<Definitions>, line: &RecipeLine) -> bool
    ensures { result ≡ is_known definitions.now.rows.now line.now }
{
    match line {
        RecipeLine::In { def, .. } | RecipeLine::Out { def, .. } => has_definition(
            definitions,
            *def,
        ),
        RecipeLine::Parameter { .. } | RecipeLine::Phase { .. } => true,
    }
}
