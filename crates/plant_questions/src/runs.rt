//! The rows of one lot among rows in the order of their lots, found by halves.

ghost use Rattle.std.specs.Prelude.{◌≡◌, ◌≤◌, true, false, length};
ghost use Rattle.std.specs.List.Sorted.{IsPartitionPoint};
ghost use Rattle.std.specs.Ordering.{is_le, is_lt};
ghost use Rattle.plant_base.specs.{id_cmp};
ghost use Rattle.plant_questions.specs.Prefetching.{Rise, rows_of};

use crate::of_lot::OfLot;
use plant_base::Id;

/// The rows of the lot.
pub(crate) fn run_of<'a, R: OfLot>(rows: &'a [R], lot: &Id) -> &'a [R]
    ensures { Rise R.lot_of rows.now → result.now ≡ rows_of R.lot_of lot.now rows.now }
{
    let from = count_before(rows, *lot);
    let rest = &rows[from..];
    let count = count_up_to(rest, *lot);
    &rest[..count]
}

// How many rows are of lots before this one.
fn count_before<R: OfLot>(rows: &[R], lot: Id) -> usize
    ensures bound { result ≤ length rows.now }
    ensures parted { Rise R.lot_of rows.now
        → IsPartitionPoint (λ r. is_lt (id_cmp (R.lot_of r) lot) ≡ true)
        (λ r. is_lt (id_cmp (R.lot_of r) lot) ≡ false) rows.now result }
{
    rows.partition_point(
        |row: &R| -> bool
            ensures { result ≡ is_lt (id_cmp (R.lot_of row.now) lot) }
        { row.lot() < lot },
    )
}

// How many rows are of lots before this one, or of it.
fn count_up_to<R: OfLot>(rows: &[R], lot: Id) -> usize
    ensures bound { result ≤ length rows.now }
    ensures parted { Rise R.lot_of rows.now
        → IsPartitionPoint (λ r. is_le (id_cmp (R.lot_of r) lot) ≡ true)
        (λ r. is_le (id_cmp (R.lot_of r) lot) ≡ false) rows.now result }
{
    rows.partition_point(
        |row: &R| -> bool
            ensures { result ≡ is_le (id_cmp (R.lot_of row.now) lot) }
        { row.lot() <= lot },
    )
}
