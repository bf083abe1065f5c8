//! Control recipes.
ghost use Rattle.std.specs.Prelude.{◌≡◌, ◌==◌, ◌≤◌, if◌then◌else◌, IfOk, IfErr, IsTrue, Some, None};
ghost use Rattle.plant_base.specs.{greatest_amount};
ghost use Rattle.plant_recipe.specs.Scaling.{scaled_of};
ghost use Rattle.plant_recipe.specs.WellFormed.{fits, all_fit};
ghost use Rattle.plant_recipe.specs.Control.{is_size_of, line_scaled, scales_to_nothing};
ghost use Rattle.plant_recipe.specs.Control.{lines_scaled, control_of, KeepsProcedure};
ghost use Rattle.plant_recipe.specs.declared.control_recipe.RecipeFault.TheVariants.{Nothing};
ghost use Rattle.plant_recipe.specs.declared.control_recipe.RecipeFault.TheVariants.{Memory};

use crate::master::Master;
use crate::scaling::scaled;
use plant_base::{Amount, Header, Items, RecipeLine};
use std::alloc::{AllocFailed, Global};
use thiserror::Error;

/// Why there is no control recipe.
#[derive(Clone, Copy, Debug, PartialEq, Eq, Error)]
pub enum RecipeFault {
    /// An input or output is scaled to nothing.
    #[error("an input or output is scaled to nothing")]
    Nothing,
    /// Memory was refused.
    #[error("out of memory")]
    Memory,
}

impl<T: Drop> From<AllocFailed<T>> for RecipeFault {
    ghost use Rattle.std.specs.Prelude.{◌≡◌};
    ghost use Rattle.plant_recipe.specs.declared.control_recipe.RecipeFault.TheVariants.{Memory};

    ghost from_gives = { λ _ fault. fault ≡ Memory };

    fn from(_fault: AllocFailed<T>) -> Self {
        RecipeFault::Memory
    }
}

/// The control recipe of a master recipe for a size (IEC 61512-1: it begins as a copy of a version of a master recipe):
/// the master's lines in their order, the inputs and outputs scaled from the base to the size, the others copied.
///
/// The caller knows that the size is within the master's sizes, its least and its greatest among them. `Nothing` comes
/// only where some input or output is scaled to 0, and there no control recipe is given. `Memory` comes where memory was
/// refused. What came about until a fault is dropped.
pub fn control(
    alloc: Global,
    master: &Master,
    size: Amount,
) -> Result<Items<RecipeLine>, RecipeFault>
    requires { IsTrue (is_size_of master.now.header size) }
    ensures lines { IfOk result
        (λ lines. control_of master.now.header master.now.lines size ≡ Some lines) }
    ensures nothing { result ≡ Err RecipeFault.Nothing
        → control_of master.now.header master.now.lines size ≡ None }
{
    let base = master.header().base;
    let lines = scale_lines(alloc, base, size, master.lines())?;
    Ok(Items::new(lines))
}

/// Whether a size is among those of a header, its least and its greatest among them.
pub fn is_size_of(header: &Header, size: Amount) -> bool
    ensures { result ≡ is_size_of header.now size }
{
    header.least.get() <= size.get() && size.get() <= header.greatest.get()
}

/// A control recipe has as many lines and phases as its master recipe, as a law that a proof above may cite. It does
/// nothing when it runs.
pub fn control_law()
    ensures { KeepsProcedure }
{}

#[tactic(auto, using(crate::proofs::RecipeLines::passes_at))]
fn scale_lines(
    alloc: Global,
    base: Amount,
    size: Amount,
    lines: &[RecipeLine],
) -> Result<Vec<RecipeLine>, RecipeFault>
    requires { IsTrue (all_fit base size lines.now) }
    ensures lines { IfOk result (λ control. lines_scaled base size lines.now ≡ Some control.items) }
    ensures nothing { result ≡ Err RecipeFault.Nothing → lines_scaled base size lines.now ≡ None }
{
    let mut control = Vec::new(alloc);
    for line in lines {
        match scale_line(base, size, *line) {
            Some(scaled) => control.push(scaled)?,
            None => return Err(RecipeFault::Nothing),
        }
    }
    Ok(control)
}

fn scale_line(base: Amount, size: Amount, line: RecipeLine) -> Option<RecipeLine>
    requires { IsTrue (fits base size line) }
    ensures { result ≡ (if scales_to_nothing base size line then None else Some
        (line_scaled base size line)) }
{
    match line {
        RecipeLine::In { def, amount } => Some(RecipeLine::In {
            def,
            amount: scale_amount(base, size, amount)?,
        }),
        RecipeLine::Out { def, amount } => Some(RecipeLine::Out {
            def,
            amount: scale_amount(base, size, amount)?,
        }),
        copied => Some(copied),
    }
}

fn scale_amount(base: Amount, size: Amount, amount: Amount) -> Option<Amount>
    requires { scaled_of amount size base ≤ greatest_amount }
    ensures { result ≡ (if scaled_of amount size base == 0 then None else Some
        (scaled_of amount size base)) }
{
    Amount::new(scaled(amount, size, base) as u64)
}
