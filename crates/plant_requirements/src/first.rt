//! What is reported of a row, and the first row that breaks a rule.
ghost use Rattle.std.specs.Prelude.{◌≡◌, IfOk, Option};
ghost use Rattle.std.specs.Fn.{FnReturnsAt};
ghost use Rattle.plant_requirements.specs.First.{as_a_whole, first_reported, in_column, names_none};
ghost use Rattle.plant_requirements.specs.First.{or_fault, fault_unless};
ghost use Rattle.plant_requirements.specs.First.{RowFault as Reported};

use crate::fault::{Column, Found, RowFault, RowKey, Wanted};
use crate::table_names::Table;
use plant_base::Id;
use std::alloc::{AllocError, Global};

/// What each row of a table has to obey by itself, given the rows that it is compared with.
pub trait RowRule<R> {
    ghost use Rattle.std.specs.Prelude.{◌≡◌, Option, IfOk};
    ghost use Rattle.plant_requirements.specs.First.{RowFault as Reported};

    /// What is wrong with a row.
    ghost fault_of: { Self → R → Option Reported };

    /// What is wrong with the row. The only error is that memory was refused.
    fn fault(&self, alloc: Global, row: &R) -> Result<Option<RowFault>, AllocError>
        ensures { IfOk result (λ reported. reported ≡ fault_of self.now row.now) };
}

/// The fault of the row of this table and key: this is in a column, where that is wanted.
pub fn in_column(place: (Table, RowKey), column: Column, found: Found, wanted: Wanted) -> RowFault
    ensures { result ≡ in_column place column found wanted }
{
    RowFault {
        table: place.0,
        key: place.1,
        column: Some(column),
        found,
        wanted,
    }
}

/// The row of this table and key, where the id in its column is that of no row of the other table.
pub fn names_none(place: (Table, RowKey), column: Column, id: Id, other: Table) -> RowFault
    ensures { result ≡ names_none place column id other }
{
    in_column(place, column, Found::Id(id), Wanted::Key(other))
}

/// The row of this table and key, where this is wanted of it as a whole.
pub fn as_a_whole(place: (Table, RowKey), wanted: Wanted) -> RowFault
    ensures { result ≡ as_a_whole place wanted }
{
    RowFault {
        table: place.0,
        key: place.1,
        column: None,
        found: Found::Row,
        wanted,
    }
}

/// The fault, where the rule isn't obeyed.
pub fn fault_unless(obeyed: bool, fault: RowFault) -> Option<RowFault>
    ensures { result ≡ fault_unless obeyed fault }
{
    if obeyed { None } else { Some(fault) }
}

/// The one, where there is one, and else the other.
pub fn or_fault(first: Option<RowFault>, rest: Option<RowFault>) -> Option<RowFault>
    ensures { result ≡ or_fault first rest }
{
    match first {
        None => rest,
        Some(fault) => Some(fault),
    }
}

/// The fault of the first of the rows that have one. The only error is that memory was refused.
pub fn first_fault<R, T: RowRule<R>>(
    alloc: Global,
    rule: &T,
    rows: &[R],
) -> Result<Option<RowFault>, AllocError>
    ensures { IfOk result (λ reported. reported ≡ first_reported (T.fault_of rule.now) rows.now) }
{
    for row in rows {
        if let Some(fault) = rule.fault(alloc, row)? {
            return Ok(Some(fault));
        }
    }
    Ok(None)
}

/// The fault of the first of the rows that have one, by a test that gives what a definition does.
pub fn first_of<R, F: Fn(&R) -> Option<RowFault>>(rows: &[R], fault: F) -> Option<RowFault>
    requires { F.IsAlwaysCallable fault }
    ensures { (fault_of : R → Option Reported) → ((x : R) (r : Option Reported) → FnReturnsAt F.Fn fault x r → r ≡ fault_of x)
        → result ≡ first_reported fault_of rows.now }
{
    for row in rows {
        match fault(row) {
            None => {}
            Some(found) => return Some(found),
        }
    }
    None
}
