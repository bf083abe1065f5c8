//! Lots, sublots and holds that break a rule.
ghost use Rattle.std.specs.Prelude.{◌≡◌, IfOk};
ghost use Rattle.plant_check.specs.Lots.{hold_fault, lot_fault, lot_fault_in, sublot_fault};
ghost use Rattle.plant_requirements.specs.{first_reported};

use grouped_rows::Grouped;
use plant_base::{Hold, Lot, Sublot};
use plant_check_rules::ends::BySublotEntered;
use plant_check_rules::lots::{SublotsOfLots, are_from_zero, has_lot, is_born, sublots_of};
use plant_requirements::first::{RowRule, as_a_whole, first_fault, names_none, or_fault};
use plant_requirements::keys::{hold_key, id_key, sublot_key};
use plant_requirements::plan_keys::{Definitions, has_definition};
use plant_requirements::stock_keys::Lots;
use plant_requirements::{Column, RowFault, Table, Wanted};
use plant_tables::DeskRows;
use std::alloc::{AllocError, Global};

/// That a lot's definition is there, and its sublots are numbered from 0 on.
#[derive(Drop)]
struct Defined<'a> {
    definitions: Grouped<'a, Definitions>,
    sublots: Grouped<'a, SublotsOfLots>,
}

impl<'a> RowRule<Lot> for Defined<'a> {
    ghost use Rattle.plant_check.specs.Lots.{lot_fault};

    ghost fault_of = { λ t l. lot_fault t.definitions.rows.now t.sublots.rows.now l };

    fn fault(&self, _alloc: Global, row: &Lot) -> Result<Option<RowFault>, AllocError> {
        let place = (Table::Lot, id_key(row.id));
        if !has_definition(&self.definitions, row.def) {
            return Ok(Some(names_none(place, Column::Def, row.def, Table::Definition)));
        }
        if are_from_zero(sublots_of(&self.sublots, row.id)) {
            return Ok(None);
        }
        Ok(Some(as_a_whole(place, Wanted::NumberedFrom(Table::Sublot, 0))))
    }
}

/// That a sublot's lot is there, and that it came to be once.
#[derive(Drop)]
struct Born<'a> {
    lots: Grouped<'a, Lots>,
    entered: Grouped<'a, BySublotEntered>,
}

impl<'a> RowRule<Sublot> for Born<'a> {
    ghost use Rattle.plant_check.specs.Lots.{sublot_fault};

    ghost fault_of = { λ t s. sublot_fault t.lots.rows.now t.entered.rows.now s };

    fn fault(&self, _alloc: Global, row: &Sublot) -> Result<Option<RowFault>, AllocError> {
        let place = (Table::Sublot, sublot_key(row));
        if !has_lot(&self.lots, row.lot) {
            return Ok(Some(names_none(place, Column::Lot, row.lot, Table::Lot)));
        }
        if is_born(&self.entered, row) {
            return Ok(None);
        }
        Ok(Some(as_a_whole(place, Wanted::Birth)))
    }
}

/// That a hold's lot is there.
#[derive(Drop)]
struct OfLots<'a> {
    lots: Grouped<'a, Lots>,
}

impl<'a> RowRule<Hold> for OfLots<'a> {
    ghost use Rattle.plant_check.specs.Lots.{hold_fault};

    ghost fault_of = { λ t h. hold_fault t.lots.rows.now h };

    fn fault(&self, _alloc: Global, row: &Hold) -> Result<Option<RowFault>, AllocError> {
        if has_lot(&self.lots, row.lot) {
            return Ok(None);
        }
        let place = (Table::Hold, hold_key(row));
        Ok(Some(names_none(place, Column::Lot, row.lot, Table::Lot)))
    }
}

fn undefined_lot(alloc: Global, rows: &DeskRows) -> Result<Option<RowFault>, AllocError>
    ensures { IfOk result (λ reported. reported ≡ first_reported
        (lot_fault rows.now.definitions.items rows.now.sublots.items) rows.now.lots.items) }
{
    let definitions = Grouped::<Definitions>::new(alloc, rows.definitions.as_slice())?;
    let sublots = Grouped::<SublotsOfLots>::new(alloc, rows.sublots.as_slice())?;
    let defined = Defined {
        definitions,
        sublots,
    };
    first_fault(alloc, &defined, rows.lots.as_slice())
}

fn sublot_without_birth(alloc: Global, rows: &DeskRows) -> Result<Option<RowFault>, AllocError>
    ensures { IfOk result (λ reported. reported ≡ first_reported
        (sublot_fault rows.now.lots.items rows.now.movements.items) rows.now.sublots.items) }
{
    let lots = Grouped::<Lots>::new(alloc, rows.lots.as_slice())?;
    let entered = Grouped::<BySublotEntered>::new(alloc, rows.movements.as_slice())?;
    first_fault(alloc, &Born { lots, entered }, rows.sublots.as_slice())
}

fn hold_without_lot(alloc: Global, rows: &DeskRows) -> Result<Option<RowFault>, AllocError>
    ensures { IfOk result (λ reported. reported ≡ first_reported (hold_fault rows.now.lots.items) rows.now.holds.items) }
{
    let lots = Grouped::<Lots>::new(alloc, rows.lots.as_slice())?;
    first_fault(alloc, &OfLots { lots }, rows.holds.as_slice())
}

/// The first lot that breaks its rule, or else the first sublot, or else the first hold. The only error is that memory was
/// refused.
pub(crate) fn lot_fault(alloc: Global, rows: &DeskRows) -> Result<Option<RowFault>, AllocError>
    ensures { IfOk result (λ reported. reported ≡ lot_fault_in rows.now.definitions.items rows.now.lots.items
        rows.now.sublots.items rows.now.holds.items rows.now.movements.items) }
{
    let undefined = undefined_lot(alloc, rows)?;
    let unborn = sublot_without_birth(alloc, rows)?;
    let stray = hold_without_lot(alloc, rows)?;
    Ok(or_fault(undefined, or_fault(unborn, stray)))
}
