//! Lines of recipes, from the columns that master and control recipes share.

ghost use Rattle.std.specs.Prelude.{◌≡◌, ◌<◌, ◌+◌, pos};
ghost use Rattle.sqlite.specs.Order.{column};
ghost use Rattle.plant_tables_columns.specs.Naming.{line_kind_number, line_kind_from};
ghost use Rattle.sqlite.specs.Values.{bound};
ghost use Rattle.plant_tables_columns.specs.TableColumns.{columns_of_line, material_from};
ghost use Rattle.plant_tables_columns.specs.TableColumns.{has_no_material, parameter_from};
ghost use Rattle.plant_tables_columns.specs.TableColumns.{phase_from, line_from};

use crate::reading::{amount, id, integer, is_empty, is_null, is_zero, text};
use crate::storing;
use plant_base::{Amount, Id, RecipeLine};
use sqlite::Row;
use sqlite_value::value::ValueRef;

/// What a line of a recipe is.
#[derive(Clone, Copy, Debug, PartialEq, Eq)]
pub enum LineKindCode {
    /// A process input.
    In,
    /// A process output.
    Out,
    /// A process parameter.
    Parameter,
    /// A phase of the procedure.
    Phase,
}

impl LineKindCode {
    /// Its number in a table.
    fn number(self) -> i64
        ensures { result ≡ pos (line_kind_number self) }
    {
        match self {
            LineKindCode::In => 1,
            LineKindCode::Out => 2,
            LineKindCode::Parameter => 3,
            LineKindCode::Phase => 4,
        }
    }
}

#[tactic(auto, unfolding(crate::specs::Naming::line_kind_from))]
fn line_kind_code(row: &Row, at: usize) -> Option<LineKindCode>
    ensures { result ≡ line_kind_from (column row.now at) }
{
    let number = integer(row, at)?;
    [
        LineKindCode::In,
        LineKindCode::Out,
        LineKindCode::Parameter,
        LineKindCode::Phase,
    ]
    .iter()
    .copied()
    .find(|kind_code| kind_code.number() == number)
}

/// What an in or out line asks for.
#[derive(Clone, Copy, Debug, PartialEq, Eq)]
pub struct Material {
    /// The definition that is consumed or produced.
    pub def: Id,
    /// How much, in the unit of the definition.
    pub amount: Amount,
}

/// The material of an in or out line, from the columns def, qty, t1, t2 and t3. It uses no text.
#[tactic(auto, unfolding(crate::specs::TableColumns::material_from))]
fn material_named(row: &Row, def: usize) -> Option<Material>
    requires { def < 1000 }
    ensures { result ≡ material_from (column row.now def) (column row.now (def + 1))
        (column row.now (def + 2)) (column row.now (def + 3)) (column row.now (def + 4)) }
{
    if !(is_empty(row, def + 2) && is_empty(row, def + 3) && is_empty(row, def + 4)) {
        return None;
    }
    Some(Material {
        def: id(row, def)?,
        amount: amount(row, def + 1)?,
    })
}

/// Whether the columns def and qty are unused.
#[tactic(auto, unfolding(crate::specs::TableColumns::has_no_material))]
fn names_no_material(row: &Row, def: usize) -> bool
    requires { def < 1000 }
    ensures { result ≡ has_no_material (column row.now def) (column row.now (def + 1)) }
{
    is_null(row, def) && is_zero(row, def + 1)
}

/// A parameter, from the columns def, qty, t1, t2 and t3.
#[tactic(auto, unfolding(crate::specs::TableColumns::parameter_from))]
fn parameter(row: &Row, def: usize) -> Option<RecipeLine>
    requires { def < 1000 }
    ensures { result ≡ parameter_from (column row.now def) (column row.now (def + 1))
        (column row.now (def + 2)) (column row.now (def + 3)) (column row.now (def + 4)) }
{
    if !(names_no_material(row, def) && is_empty(row, def + 4)) {
        return None;
    }
    Some(RecipeLine::Parameter {
        name: id(row, def + 2)?,
        value: text(row, def + 3)?,
    })
}

/// A phase, from the columns def, qty, t1, t2 and t3.
#[tactic(auto, unfolding(crate::specs::TableColumns::phase_from))]
fn phase(row: &Row, def: usize) -> Option<RecipeLine>
    requires { def < 1000 }
    ensures { result ≡ phase_from (column row.now def) (column row.now (def + 1))
        (column row.now (def + 2)) (column row.now (def + 3)) (column row.now (def + 4)) }
{
    if !names_no_material(row, def) {
        return None;
    }
    Some(RecipeLine::Phase {
        unit_procedure: id(row, def + 2)?,
        operation: id(row, def + 3)?,
        phase: id(row, def + 4)?,
    })
}

/// The line that has these columns: kind, and then def, qty, t1, t2 and t3. `None` where a value breaks its rule, or a
/// column that its kind uses is unused or the other way round.
#[tactic(auto, unfolding(crate::specs::TableColumns::line_from))]
pub(crate) fn line(row: &Row, kind: usize, def: usize) -> Option<RecipeLine>
    requires { def < 1000 }
    ensures { result ≡ line_from (column row.now kind) (column row.now def) (column row.now (def + 1))
        (column row.now (def + 2)) (column row.now (def + 3)) (column row.now (def + 4)) }
{
    match line_kind_code(row, kind)? {
        LineKindCode::In => {
            let Material { def, amount } = material_named(row, def)?;
            Some(RecipeLine::In { def, amount })
        }
        LineKindCode::Out => {
            let Material { def, amount } = material_named(row, def)?;
            Some(RecipeLine::Out { def, amount })
        }
        LineKindCode::Parameter => parameter(row, def),
        LineKindCode::Phase => phase(row, def),
    }
}

/// The columns kind, def, qty, t1, t2 and t3 of a line of a recipe.
pub(crate) fn line_values(line: &RecipeLine) -> [ValueRef<'_>; 6]
    ensures { bound result ≡ columns_of_line line.now }
{
    match line {
        RecipeLine::In { def, amount: n } => [
            storing::small(1),
            storing::id(def),
            storing::amount(*n),
            storing::word(""),
            storing::word(""),
            storing::word(""),
        ],
        RecipeLine::Out { def, amount: n } => [
            storing::small(2),
            storing::id(def),
            storing::amount(*n),
            storing::word(""),
            storing::word(""),
            storing::word(""),
        ],
        RecipeLine::Parameter { name, value } => [
            storing::small(3),
            ValueRef::Null,
            storing::small(0),
            storing::id(name),
            storing::text(value),
            storing::word(""),
        ],
        RecipeLine::Phase {
            unit_procedure,
            operation,
            phase,
        } => [
            storing::small(4),
            ValueRef::Null,
            storing::small(0),
            storing::id(unit_procedure),
            storing::id(operation),
            storing::id(phase),
        ],
    }
}
