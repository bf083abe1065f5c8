//! Recalls that break a rule.
ghost use Rattle.std.specs.Prelude.{◌≡◌, IfOk};
ghost use Rattle.plant_tables.specs.{rows_listed};
ghost use Rattle.plant_check_rules.specs.{movements_in, recalls_read};
ghost use Rattle.plant_check.specs.Findings.{recalled_fault_in};
ghost use Rattle.plant_check.specs.Recalls.{recall_as, recall_fault_in};

use crate::marks::mark_fault;
use grouped_rows::Grouped;
use plant_base::{Id, Lot, Moment, Recall};
use plant_check_rules::history::movements_in;
use plant_check_rules::recalls::recalls_read;
use plant_requirements::first::{RowRule, fault_unless, first_fault, in_column, or_fault};
use plant_requirements::keys::id_key;
use plant_requirements::recalls::is_timely;
use plant_requirements::stock_keys::{Lots, lot_at};
use plant_requirements::{Column, Found, RowFault, Table, Wanted};
use plant_tables::{DeskRows, StatedRecall};
use std::alloc::{AllocError, Global};

/// The fault of the recall: this is in a column, where that is wanted.
fn recall_as(id: Id, column: Column, found: Found, wanted: Wanted) -> RowFault
    ensures { result ≡ recall_as id column found wanted }
{
    in_column((Table::Recall, id_key(id)), column, found, wanted)
}

/// The rule that a recall has the columns of its lifting exactly where its state says that it was lifted.
#[derive(Clone, Copy)]
struct Stated;

impl RowRule<StatedRecall> for Stated {
    ghost use Rattle.plant_check.specs.Recalls.{lifting_fault};

    ghost fault_of = { λ _ r. lifting_fault r };

    fn fault(&self, _alloc: Global, row: &StatedRecall) -> Result<Option<RowFault>, AllocError> {
        let fault = recall_as(row.id, Column::State, Found::Row, Wanted::Columns);
        Ok(fault_unless(row.recall().is_some(), fault))
    }
}

/// That a recall's lot is there, and that its moments fit.
#[derive(Drop)]
struct Recalling<'a> {
    at: Moment,
    lots: Grouped<'a, Lots>,
}

impl<'a> RowRule<Recall> for Recalling<'a> {
    ghost use Rattle.plant_check.specs.Recalls.{recall_fault};

    ghost fault_of = { λ t r. recall_fault t.at t.lots.rows.now r };

    fn fault(&self, _alloc: Global, row: &Recall) -> Result<Option<RowFault>, AllocError> {
        let of_lot = Found::Id(row.lot);
        let at = Found::Number(row.at.get());
        let no_lot = recall_as(row.id, Column::Lot, of_lot, Wanted::Key(Table::Lot));
        let untimely = recall_as(row.id, Column::At, at, Wanted::Between);
        Ok(or_fault(
            fault_unless(lot_at(&self.lots, row.lot).is_some(), no_lot),
            fault_unless(is_timely(self.at, row), untimely),
        ))
    }
}

/// The first row whose columns aren't those of its state, or else the first recall whose lot isn't there or whose moments don't
/// fit. The only error is that memory was refused.
fn stated_fault(
    alloc: Global,
    at: Moment,
    rows: &[StatedRecall],
    lots: &[Lot],
    recalls: &[Recall],
) -> Result<Option<RowFault>, AllocError>
    ensures { IfOk result (λ reported. reported ≡ recall_fault_in at rows.now lots.now recalls.now) }
{
    let first = first_fault(alloc, &Stated, rows)?;
    let lots = Grouped::<Lots>::new(alloc, lots)?;
    let rest = first_fault(alloc, &Recalling { at, lots }, recalls)?;
    Ok(or_fault(first, rest))
}

/// The first row that breaks the rule, or else the mark that does. The only error is that memory was refused.
#[tactic(auto, unfolding(plant_tables::specs::RowLists::rows_listed))]
pub(crate) fn recall_fault(alloc: Global, rows: &DeskRows) -> Result<Option<RowFault>, AllocError>
    ensures { IfOk result (λ reported. reported ≡ recalled_fault_in (rows_listed rows.now)
        (recalls_read rows.now.recalls.items) (movements_in rows.now.movements.items)) }
{
    let movements = movements_in(alloc, rows.movements.as_slice())?;
    let stated = rows.recalls.as_slice();
    let recalls = recalls_read(alloc, stated)?;
    let at = rows.meta.position.at;
    let lots = rows.lots.as_slice();
    let by_row = stated_fault(alloc, at, stated, lots, recalls.as_slice())?;
    let marked = mark_fault(
        alloc,
        recalls.as_slice(),
        movements.as_slice(),
        rows.marks.as_slice(),
    )?;
    Ok(or_fault(by_row, marked))
}
