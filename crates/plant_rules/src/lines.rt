//! Which line is the cause that a recipe is refused.
ghost use Rattle.std.specs.Prelude.{◌≡◌, IfOk, not};
ghost use Rattle.plant_trace.specs.ReadOnly.{ReadOnly};
ghost use Rattle.plant_view.specs.{is_known};
ghost use Rattle.plant_rules.specs.Causes.{first_failing, is_for_a_line, item_of};
ghost use Rattle.plant_base.specs.declared.commands.Command.TheVariants as body;

use plant_base::{AddRecipe, RecipeLine, Refusal};
use plant_view::{View, ViewFault, lookup};

// The number, counted from 1, of the first line whose definition isn't known, where the refusal is for a line.
pub(crate) fn bad_line<V: View>(
    view: &mut V,
    c: &AddRecipe,
    refusal: Refusal,
) -> Result<Option<usize>, ViewFault<V::Fault>>
    ensures { ReadOnly V.Edges view.old view.new
        (IfOk result (λ item. item ≡ item_of (V.state view.old) (body.AddRecipe c.now) refusal)) }
{
    if !is_for_a_line(view, c, refusal)? {
        return Ok(None);
    }
    first_unknown(view, c.lines.as_slice())
}

// Whether the refusal is for a line, as the product is known.
fn is_for_a_line<V: View>(
    view: &mut V,
    c: &AddRecipe,
    refusal: Refusal,
) -> Result<bool, ViewFault<V::Fault>>
    ensures { ReadOnly V.Edges view.old view.new
        (IfOk result (λ for_a_line. for_a_line ≡ is_for_a_line (V.state view.old) c.now refusal)) }
{
    match refusal {
        Refusal::UnknownDefinition => Ok(lookup::definition(view, c.header.product)?.is_some()),
        _ => Ok(false),
    }
}

fn first_unknown<V: View>(
    view: &mut V,
    lines: &[RecipeLine],
) -> Result<Option<usize>, ViewFault<V::Fault>>
    ensures { ReadOnly V.Edges view.old view.new
        (IfOk result (λ item. item
        ≡ first_failing (λ l. not (is_known (V.state view.old).definitions l)) lines.now)) }
{
    for (index, line) in lines.iter().enumerate() {
        if !is_known(view, *line)? {
            return Ok(Some(index + 1));
        }
    }
    Ok(None)
}

fn is_known<V: View>(view: &mut V, line: RecipeLine) -> Result<bool, ViewFault<V::Fault>>
    ensures { ReadOnly V.Edges view.old view.new
        (IfOk result (λ known. known ≡ is_known (V.state view.old).definitions line)) }
{
    match line {
        RecipeLine::In { def, .. } | RecipeLine::Out { def, .. } => {
            Ok(lookup::definition(view, def)?.is_some())
        }
        _ => Ok(true),
    }
}
