//! Which recipes are well formed.
ghost use Rattle.std.specs.Prelude.{◌≡◌};
ghost use Rattle.std.specs.List.{list_any};
ghost use Rattle.plant_recipe.specs.WellFormed.{is_in_of, is_out_of, is_parameter_of, is_phase};
ghost use Rattle.plant_recipe.specs.WellFormed.{has_allowed_length, has_size_range};
ghost use Rattle.plant_recipe.specs.WellFormed.{has_phase, has_product, repeats, has_no_repeats};
ghost use Rattle.plant_recipe.specs.WellFormed.{fits, all_fit, is_well_formed};
ghost use Rattle.plant_recipe.specs.WellFormed.{OccursOnceIfWellFormed, HasPhasesIfWellFormed};

use crate::scaling::scaled;
use plant_base::{Amount, GREATEST_AMOUNT, Header, Id, RecipeLine};

/// The greatest number of lines of a recipe.
pub const GREATEST_LINES: usize = 128;

/// Whether a recipe of this header and these lines is well formed (the header, formula and procedure of a recipe,
/// IEC 61512-1). No memory is taken.
///
/// It is where all of these hold:
///
/// - it has 1 to [`GREATEST_LINES`] lines;
/// - its least size isn't above its greatest;
/// - it has a phase;
/// - its product is among its outputs;
/// - a definition is at most once among the inputs and at most once among the outputs, and the names of the
///   parameters are distinct;
/// - each input and output, scaled from the base to the greatest size, is at most [`GREATEST_AMOUNT`].
///
/// The base may lie outside the sizes. The version isn't looked at.
pub fn is_well_formed(header: &Header, lines: &[RecipeLine]) -> bool
    ensures { result ≡ is_well_formed header.now lines.now }
{
    has_allowed_count(lines)
        && has_sizes(header)
        && has_some_phase(lines)
        && has_output_of(header.product, lines)
        && repeats_nothing(lines)
        && all_scale(header.base, header.greatest, lines)
}

/// What holds of every well-formed recipe, as a law that a proof above may cite. It does nothing when it runs.
///
/// - `once`: a definition is at most one input and at most one output, and a name that of at most one parameter.
/// - `phases`: there are 1 to 127 phases.
pub fn well_formed_laws()
    ensures once { OccursOnceIfWellFormed }
    ensures phases { HasPhasesIfWellFormed }
{}

fn has_allowed_count(lines: &[RecipeLine]) -> bool
    ensures { result ≡ has_allowed_length lines.now }
{
    lines.len() >= 1 && lines.len() <= GREATEST_LINES
}

fn has_sizes(header: &Header) -> bool
    ensures { result ≡ has_size_range header.now }
{
    header.least.get() <= header.greatest.get()
}

/// Whether one of the lines is a phase.
pub fn has_some_phase(lines: &[RecipeLine]) -> bool
    ensures { result ≡ has_phase lines.now }
{
    lines.iter().any(|&line| is_phase(line))
}

/// Whether one of the lines is an output of the product.
pub fn has_output_of(product: Id, lines: &[RecipeLine]) -> bool
    ensures { result ≡ has_product product lines.now }
{
    lines.iter().any(|&line| is_output_of(product, line))
}

#[tactic(auto, using(crate::proofs::RecipeLines::no_repeats_at))]
fn repeats_nothing(lines: &[RecipeLine]) -> bool
    ensures { result ≡ has_no_repeats lines.now }
{
    for (index, line) in lines.iter().enumerate() {
        if is_repeated_in(*line, &lines[index + 1..]) {
            return false;
        }
    }
    true
}

fn is_repeated_in(line: RecipeLine, others: &[RecipeLine]) -> bool
    ensures { result ≡ list_any (repeats line) others.now }
{
    others.iter().any(|&other| is_repeated_by(line, other))
}

fn all_scale(base: Amount, size: Amount, lines: &[RecipeLine]) -> bool
    ensures { result ≡ all_fit base size lines.now }
{
    lines.iter().all(|&line| scales_within(base, size, line))
}

/// Whether the line is a phase.
pub fn is_phase(line: RecipeLine) -> bool
    ensures { result ≡ is_phase line }
{
    matches!(line, RecipeLine::Phase { .. })
}

/// Whether the line is an input of this definition.
pub fn is_input_of(wanted: Id, line: RecipeLine) -> bool
    ensures { result ≡ is_in_of wanted line }
{
    match line {
        RecipeLine::In { def, .. } => def == wanted,
        _ => false,
    }
}

/// Whether the line is an output of this definition.
pub fn is_output_of(wanted: Id, line: RecipeLine) -> bool
    ensures { result ≡ is_out_of wanted line }
{
    match line {
        RecipeLine::Out { def, .. } => def == wanted,
        _ => false,
    }
}

fn is_parameter_named(wanted: Id, line: RecipeLine) -> bool
    ensures { result ≡ is_parameter_of wanted line }
{
    match line {
        RecipeLine::Parameter { name, .. } => name == wanted,
        _ => false,
    }
}

/// Whether both are inputs of one definition, outputs of one definition or parameters of one name.
pub fn is_repeated_by(line: RecipeLine, other: RecipeLine) -> bool
    ensures { result ≡ repeats line other }
{
    match line {
        RecipeLine::In { def, .. } => is_input_of(def, other),
        RecipeLine::Out { def, .. } => is_output_of(def, other),
        RecipeLine::Parameter { name, .. } => is_parameter_named(name, other),
        RecipeLine::Phase { .. } => false,
    }
}

/// Whether an input or output, scaled from the base to the size, is at most [`GREATEST_AMOUNT`]. Other lines have no amount.
pub fn scales_within(base: Amount, size: Amount, line: RecipeLine) -> bool
    ensures { result ≡ fits base size line }
{
    match line {
        RecipeLine::In { amount, .. } | RecipeLine::Out { amount, .. } => {
            scaled(amount, size, base) <= u128::from(GREATEST_AMOUNT)
        }
        _ => true,
    }
}
