//! Movements that break a rule.
ghost use Rattle.std.specs.Prelude.{◌≡◌, IfOk};
ghost use Rattle.plant_check.specs.Movements.{id_found, movement_as, movement_fault};
ghost use Rattle.plant_check.specs.Movements.{movement_fault_in, naming_fault};
ghost use Rattle.plant_check_rules.specs.{movements_in};
ghost use Rattle.plant_requirements.specs.{first_reported};

use grouped_rows::Grouped;
use plant_base::{BatchRow, ControlLine, Id, Lot, Movement, Sublot};
use plant_check_rules::history::movements_in;
use plant_requirements::first::{RowRule, first_fault, in_column};
use plant_requirements::keys::booked_key;
use plant_requirements::movements::{Named, batch_by, is_of_right_merge};
use plant_requirements::stock_keys::{Parts, is_there};
use plant_requirements::{Column, Found, RowFault, Table, Wanted};
use plant_stock::{source, target};
use plant_tables::{BookedRow, DeskRows};
use std::alloc::{AllocError, Global};

/// That the columns of a row are those of its kind.
#[derive(Clone, Copy)]
struct Kinds;

impl RowRule<BookedRow> for Kinds {
    ghost use Rattle.plant_check.specs.Movements.{kind_fault};

    ghost fault_of = { λ _ r. kind_fault r };

    fn fault(&self, _alloc: Global, row: &BookedRow) -> Result<Option<RowFault>, AllocError> {
        if row.movement().is_some() {
            return Ok(None);
        }
        let place = (Table::Movement, booked_key(row.seq, row.line));
        let found = Found::MovementKind(row.kind_code);
        Ok(Some(in_column(place, Column::Kind, found, Wanted::Columns)))
    }
}

/// The fault of the movement: this is in a column, or in the row as a whole, where that is wanted.
pub(crate) fn movement_as(
    movement: &Movement,
    column: Option<Column>,
    found: Found,
    wanted: Wanted,
) -> RowFault
    ensures { result ≡ movement_as movement.now column found wanted }
{
    RowFault {
        table: Table::Movement,
        key: booked_key(movement.seq, movement.line),
        column,
        found,
        wanted,
    }
}

fn id_found(id: Option<Id>) -> Found
    ensures { result ≡ id_found id }
{
    match id {
        None => Found::Row,
        Some(id) => Found::Id(id),
    }
}

/// The movement, where a sublot or the batch that it names isn't there.
fn naming_fault(named: &Named, movement: &Movement) -> Option<RowFault>
    ensures { result ≡ naming_fault named.now.sublots.rows.now named.now.batches.rows.now movement.now }
{
    if !is_there(&named.sublots, target(movement)) {
        let wanted = Wanted::Key(Table::Sublot);
        return Some(movement_as(movement, None, Found::Row, wanted));
    }
    if !is_there(&named.sublots, source(movement)) {
        let (found, wanted) = (Found::Id(movement.lot), Wanted::Key(Table::Sublot));
        return Some(movement_as(movement, Some(Column::Lot), found, wanted));
    }
    if named.has_batch(batch_by(movement)) {
        return None;
    }
    let (found, wanted) = (id_found(batch_by(movement)), Wanted::Key(Table::Batch));
    Some(movement_as(movement, Some(Column::Batch), found, wanted))
}

/// That a movement names what is there, of the right definition.
#[derive(Drop)]
struct Moving<'a> {
    named: Named<'a>,
    parts: Grouped<'a, Parts>,
}

impl<'a> RowRule<Movement> for Moving<'a> {
    ghost use Rattle.plant_check.specs.Movements.{movement_fault};

    ghost fault_of = { λ t m. movement_fault t.named.lots.rows.now t.named.sublots.rows.now
        t.named.batches.rows.now t.named.controls.rows.now t.parts.rows.now m };

    fn fault(&self, _alloc: Global, row: &Movement) -> Result<Option<RowFault>, AllocError> {
        if let Some(fault) = naming_fault(&self.named, row) {
            return Ok(Some(fault));
        }
        if !self.named.allows(row) {
            let (found, wanted) = (Found::Id(row.lot), Wanted::RightDefinition);
            return Ok(Some(movement_as(row, Some(Column::Lot), found, wanted)));
        }
        if is_of_right_merge(&self.parts, row) {
            return Ok(None);
        }
        Ok(Some(movement_as(row, None, Found::Row, Wanted::Parts)))
    }
}

fn wrong_movement(
    alloc: Global,
    lots: &[Lot],
    sublots: &[Sublot],
    batches: &[BatchRow],
    control: &[ControlLine],
    movements: &[Movement],
) -> Result<Option<RowFault>, AllocError>
    ensures { IfOk result (λ reported. reported ≡ first_reported
        (movement_fault lots.now sublots.now batches.now control.now movements.now) movements.now) }
{
    let named = Named::new(alloc, lots, sublots, batches, control)?;
    let parts = Grouped::<Parts>::new(alloc, movements)?;
    let moving = Moving { named, parts };
    first_fault(alloc, &moving, movements)
}

/// The first row whose columns aren't those of its kind, or else the first movement that breaks its rule. The only error is
/// that memory was refused.
pub(crate) fn movement_fault(alloc: Global, rows: &DeskRows) -> Result<Option<RowFault>, AllocError>
    ensures { IfOk result (λ reported. reported ≡ movement_fault_in rows.now.movements.items rows.now.lots.items
        rows.now.sublots.items rows.now.batches.items rows.now.control_lines.items
        (movements_in rows.now.movements.items)) }
{
    if let Some(fault) = first_fault(alloc, &Kinds, rows.movements.as_slice())? {
        return Ok(Some(fault));
    }
    let movements = movements_in(alloc, rows.movements.as_slice())?;
    wrong_movement(
        alloc,
        rows.lots.as_slice(),
        rows.sublots.as_slice(),
        rows.batches.as_slice(),
        rows.control_lines.as_slice(),
        movements.as_slice(),
    )
}
