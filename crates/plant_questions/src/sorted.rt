// Rows in the order of their keys.
ghost use Rattle.std.specs.Prelude.{◌≡◌, ◌+◌, ◌<◌, ◌≤◌, length, IfOk, IfErr, vec_len, vec_capacity};
ghost use Rattle.std.specs.Prelude.{slice_set};
ghost use Rattle.std.specs.List.{insert};
ghost use Rattle.plant_base.specs.PlantState.{put};
ghost use Rattle.plant_questions.specs.Sorting.{in_order};

use std::alloc::{AllocError, Global};
use std::cmp::Ordering;

/// A row with a key.
pub trait HasKey {
    ghost use Rattle.std.specs.Prelude.{◌≡◌};
    ghost use Rattle.std.specs.declared.cmp.Ordering.{Ordering};

    /// The order of the keys.
    ghost order: { Self → Self → Ordering };

    /// Compares the keys.
    fn compare(&self, other: &Self) -> Ordering
        ensures { result ≡ order self.now other.now };
}

// The position of the row with this key, or the one where it goes.
fn place_of<R: HasKey>(rows: &[R], row: &R) -> Result<usize, usize>
    ensures there { IfOk result (λ i. i < length rows.now
        × (put R.order row.now rows.now ≡ slice_set rows.now i row.now)) }
    ensures absent { IfErr result (λ i. i ≤ length rows.now
        × (put R.order row.now rows.now ≡ insert rows.now i row.now)) }
{
    for (i, other) in rows.iter().enumerate() {
        match row.compare(other) {
            Ordering::Less => return Err(i),
            Ordering::Equal => return Ok(i),
            Ordering::Greater => {}
        }
    }
    Err(rows.len())
}

/// Puts a row instead of the one with its key, or between the others.
pub fn put_row<R: HasKey + Drop>(rows: &mut Vec<R>, row: R)
    requires { vec_len rows.old < vec_capacity rows.old }
    ensures items { rows.new.items ≡ put R.order row rows.old.items }
    ensures len { vec_len rows.new ≤ vec_len rows.old + 1 }
    ensures capacity { vec_capacity rows.old ≤ vec_capacity rows.new }
{
    match place_of(rows, &row) {
        Ok(i) => rows[i] = row,
        Err(i) => {
            let _ = rows.insert(i, row);
        }
    }
}

/// Rows in the order of their keys, whatever order they come in; of rows with one key the first.
/// The only error is that memory was refused.
pub fn in_order<R: HasKey + Drop>(alloc: Global, rows: Vec<R>) -> Result<Vec<R>, AllocError>
    ensures { IfOk result (λ v. v.items ≡ in_order R.order rows.items) }
{
    let mut left = rows;
    let mut sorted = Vec::with_capacity(alloc, left.len())?;
    while let Some(row) = left.pop() {
        put_row(&mut sorted, row);
    }
    Ok(sorted)
}
