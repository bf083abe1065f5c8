//! Rows by a key that a crate of its own brings.
use grouped_rows::{Grouped, Grouping};
use std::alloc::{AllocError, AllocGlobal};
use std::process::Abort;

/// Numbers by their last digit; those above 99 are in no group.
struct ByLastDigit;

impl Grouping for ByLastDigit {
    ghost use Rattle.std.specs.Prelude.{nat_lt, if◌then◌else◌, ◌%◌, Some, None};

    type Row = u16;

    type Key = u16;

    ghost key_of = { λ n. if nat_lt 99 n then None else Some (n % 10) };

    fn key(row: &u16) -> Option<u16> {
        if *row > 99 { None } else { Some(*row % 10) }
    }
}

#[test]
fn rows_are_found_by_their_key_in_their_order(rt: HostRuntime) -> Result<(), AllocError> {
    let rows = [31, 7, 21, 107, 1];
    let grouped = Grouped::<ByLastDigit>::new(rt.alloc(), &rows)?;
    assert!(rt; grouped.at(1) == [31, 21, 1].as_slice());
    assert!(rt; grouped.at(7) == [7].as_slice());
    assert!(rt; grouped.at(3).is_empty());
    assert!(rt; grouped.has(7) && !grouped.has(3));
    Ok(())
}
