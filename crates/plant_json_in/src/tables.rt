//! Which members commands, checks and the rows of lists have, in the order in which problems are reported.
ghost use Rattle.std.specs.Prelude.{◌≡◌, ◌≤◌, length};
ghost use Rattle.plant_json_in.specs.Tables.{shared_members};
ghost use Rattle.plant_json_in.specs.Tables.{check_members, row_own, most_members};

use crate::members::Member::{
    self, Amount, Ask, At, By, Command, Definition, Do, Due, Kind, Lot, Note, Operation, Order,
    Parameter, PhaseName, Priority, Quantity, Recipe, Reference, Size, Sub, UnitProcedure, Value,
    Version,
};
use crate::words::RowKind;

/// The members that each command has.
pub fn shared_members() -> &'static [Member]
    ensures members { result.now ≡ shared_members }
    ensures few { length result.now ≤ most_members }
{
    &[At, By, Note, Reference, Do]
}

/// The members of the question what would become of a command: its word and the command.
pub fn check_members() -> &'static [Member]
    ensures members { result.now ≡ check_members }
    ensures few { length result.now ≤ most_members }
{
    &[Ask, Command]
}

/// The members of a row of a list.
pub fn row_own(row: RowKind) -> &'static [Member]
    ensures members { result.now ≡ row_own row }
    ensures few { length result.now ≤ most_members }
{
    match row {
        RowKind::Part => &[Lot, Sub, Amount],
        RowKind::Order => &[Order, Recipe, Version, Size, Due, Priority],
        RowKind::In => &[Kind, Definition, Quantity],
        RowKind::Out => &[Kind, Definition, Quantity],
        RowKind::Parameter => &[Kind, Parameter, Value],
        RowKind::Phase => &[Kind, UnitProcedure, Operation, PhaseName],
    }
}
