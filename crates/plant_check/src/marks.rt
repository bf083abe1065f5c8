//! Marks of what no open recall reaches, and marks that are missing.
ghost use Rattle.std.specs.Prelude.{◌≡◌, IfOk};
ghost use Rattle.plant_view.specs.{edges_among, marks};
ghost use Rattle.plant_requirements.specs.{first_reported};
ghost use Rattle.plant_check.specs.Marks.{is_mark_among, mark_fault, mark_fault_among};
ghost use Rattle.plant_check.specs.Marks.{mark_fault_in};

use grouped_rows::{Grouped, Grouping};
use plant_base::{Mark, Movement, Recall};
use plant_requirements::first::{RowRule, fault_unless, first_fault, or_fault};
use plant_requirements::keys::mark_key;
use plant_requirements::{Found, RowFault, Table, Wanted, marks_within};
use plant_view::edges;
use std::alloc::{AllocError, Global};

/// Marks, each under itself.
#[derive(Clone, Copy)]
struct MarksByKey;

impl Grouping for MarksByKey {
    ghost use Rattle.std.specs.Prelude.{Some};

    type Row = Mark;

    type Key = Mark;

    ghost key_of = { λ m. Some m };

    fn key(row: &Mark) -> Option<Mark> {
        Some(*row)
    }
}

fn has_mark(among: &Grouped<MarksByKey>, mark: Mark) -> bool
    ensures { result ≡ is_mark_among among.now.rows.now mark }
{
    among.has(mark)
}

/// That a mark is one of these, else what is reported as found and as wanted.
#[derive(Drop)]
struct Among<'a> {
    among: Grouped<'a, MarksByKey>,
    found: Found,
    wanted: Wanted,
}

impl<'a> RowRule<Mark> for Among<'a> {
    ghost use Rattle.plant_check.specs.Marks.{mark_fault};

    ghost fault_of = { λ t m. mark_fault t.found t.wanted t.among.rows.now m };

    fn fault(&self, _alloc: Global, row: &Mark) -> Result<Option<RowFault>, AllocError> {
        let fault = RowFault {
            table: Table::Mark,
            key: mark_key(row),
            column: None,
            found: self.found,
            wanted: self.wanted,
        };
        Ok(fault_unless(has_mark(&self.among, *row), fault))
    }
}

// The first of the rows that is none of these.
fn first_apart(
    alloc: Global,
    among: &[Mark],
    rows: &[Mark],
    found: Found,
    wanted: Wanted,
) -> Result<Option<RowFault>, AllocError>
    ensures { IfOk result (λ reported. reported ≡ first_reported (mark_fault found wanted among.now) rows.now) }
{
    let among = Grouped::<MarksByKey>::new(alloc, among)?;
    let rule = Among {
        among,
        found,
        wanted,
    };
    first_fault(alloc, &rule, rows)
}

fn mark_fault_among(
    alloc: Global,
    reached: &[Mark],
    rows: &[Mark],
) -> Result<Option<RowFault>, AllocError>
    ensures { IfOk result (λ reported. reported ≡ mark_fault_among reached.now rows.now) }
{
    let stray = first_apart(alloc, reached, rows, Found::Row, Wanted::NoRow)?;
    let missing = first_apart(alloc, rows, reached, Found::Nothing, Wanted::Mark)?;
    Ok(or_fault(stray, missing))
}

// The marks of the open recalls on what they reach over the edges that the movements make.
fn marks_reached(
    alloc: Global,
    recalls: &[Recall],
    movements: &[Movement],
) -> Result<Vec<Mark>, AllocError>
    ensures { IfOk result (λ v. v.items ≡ marks recalls.now (edges_among movements.now)) }
{
    let pairs = edges(alloc, movements)?;
    match marks_within(alloc, recalls, &pairs, usize::MAX)? {
        Some(reached) => Ok(reached),
        // There are no more than can be counted.
        None => Err(AllocError),
    }
}

/// The first mark of what no open recall reaches, or else the first that is missing. The only error is that memory was refused.
pub(crate) fn mark_fault(
    alloc: Global,
    recalls: &[Recall],
    movements: &[Movement],
    rows: &[Mark],
) -> Result<Option<RowFault>, AllocError>
    ensures { IfOk result (λ reported. reported ≡ mark_fault_in recalls.now movements.now rows.now) }
{
    let reached = marks_reached(alloc, recalls, movements)?;
    mark_fault_among(alloc, reached.as_slice(), rows)
}
