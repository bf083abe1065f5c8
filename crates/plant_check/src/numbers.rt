//! Movements, events, batches and holds whose number or moment breaks a rule.
ghost use Rattle.std.specs.Prelude.{◌≡◌, ℕ, ◌++◌, List, false, IfOk, IfSome, None, map};
ghost use Rattle.plant_requirements.specs.{are_by, are_numbers, is_no_later, never_fall};
ghost use Rattle.plant_requirements.specs.{first_reported};
ghost use Rattle.plant_check.specs.Numbers.{event_as, fall_fault_in, late_fault_in};
ghost use Rattle.plant_check.specs.Numbers.{line_fault, line_fault_in, moment_fault};
ghost use Rattle.plant_check.specs.Numbers.{number_as, number_fault, number_fault_in};
ghost use Rattle.plant_check.specs.Findings.{numbered_fault_in};
ghost use Rattle.plant_tables.specs.{rows_listed};
ghost use Rattle.plant_check_rules.specs.{movements_in, obeys};
ghost use Rattle.plant_check_rules.specs.declared.rule.Rule.TheVariants as rule;

use crate::movements::movement_as;
use grouped_rows::Grouped;
use plant_base::{BatchEvent, BatchRow, Hold, Moment, Movement};
use plant_check_rules::history::movements_in;
use plant_requirements::first::{RowRule, fault_unless, first_fault, in_column, or_fault};
use plant_requirements::keys::{booked_key, hold_key, id_key, number_key};
use plant_requirements::numbering::{is_entered_before, is_given, is_next_line};
use plant_requirements::stock_keys::{EnteredSublots, EventNumbers, has_event};
use plant_requirements::{Column, Found, RowFault, RowKey, Table, Wanted, moments_never_fall};
use plant_stock::source;
use plant_tables::DeskRows;
use std::alloc::{AllocError, Global};

/// The movement, where it isn't the line that follows the one before it.
fn line_fault(before: Option<Movement>, movement: &Movement) -> Option<RowFault>
    ensures { result ≡ line_fault before movement.now }
{
    let fault = movement_as(
        movement,
        Some(Column::Line),
        Found::Number(u64::from(movement.line)),
        Wanted::NextLine,
    );
    fault_unless(is_next_line(before, movement), fault)
}

/// The first movement that isn't the line that follows the one before it.
fn first_line_fault(movements: &[Movement]) -> Option<RowFault>
    ensures { result ≡ line_fault_in None movements.now }
{
    let mut before = None;
    for movement in movements {
        if let Some(fault) = line_fault(before, movement) {
            return Some(fault);
        }
        before = Some(*movement);
    }
    None
}

/// The movement, where another number is wanted.
fn number_as(movement: &Movement, wanted: Wanted) -> RowFault
    ensures { result ≡ number_as movement.now wanted }
{
    movement_as(
        movement,
        Some(Column::Seq),
        Found::Number(movement.seq),
        wanted,
    )
}

/// That the number of a movement was given, to no event, and above those of what entered its sublot.
#[derive(Drop)]
struct NumberedMovements<'a> {
    greatest: u64,
    events: Grouped<'a, EventNumbers>,
    entered: Grouped<'a, EnteredSublots>,
}

impl<'a> RowRule<Movement> for NumberedMovements<'a> {
    ghost use Rattle.plant_check.specs.Numbers.{number_fault};

    ghost fault_of = { λ t m. number_fault t.greatest t.events.rows.now t.entered.rows.now m };

    fn fault(&self, _alloc: Global, row: &Movement) -> Result<Option<RowFault>, AllocError> {
        let is_after = is_entered_before(&self.entered, row.seq, source(row));
        let shared = fault_unless(
            !has_event(&self.events, row.seq),
            number_as(row, Wanted::Apart),
        );
        let early = fault_unless(is_after, number_as(row, Wanted::Later));
        Ok(or_fault(
            fault_unless(
                is_given(self.greatest, row.seq),
                number_as(row, Wanted::Given(self.greatest)),
            ),
            or_fault(shared, early),
        ))
    }
}

fn event_as(event: &BatchEvent, column: Column, found: Found, wanted: Wanted) -> RowFault
    ensures { result ≡ event_as event.now column found wanted }
{
    let place = (Table::BatchEvent, number_key(event.seq));
    in_column(place, column, found, wanted)
}

/// That the number of an event was given.
#[derive(Clone, Copy)]
struct NumberedEvents {
    greatest: u64,
}

impl RowRule<BatchEvent> for NumberedEvents {
    ghost use Rattle.plant_check.specs.Numbers.{given_fault};

    ghost fault_of = { λ t e. given_fault t.greatest e };

    fn fault(&self, _alloc: Global, row: &BatchEvent) -> Result<Option<RowFault>, AllocError> {
        let fault = event_as(
            row,
            Column::Seq,
            Found::Number(row.seq),
            Wanted::Given(self.greatest),
        );
        Ok(fault_unless(is_given(self.greatest, row.seq), fault))
    }
}

fn wrongly_numbered(
    alloc: Global,
    greatest: u64,
    events: &[BatchEvent],
    movements: &[Movement],
) -> Result<Option<RowFault>, AllocError>
    ensures { IfOk result (λ reported. reported ≡ first_reported (number_fault greatest events.now movements.now) movements.now) }
{
    let events = Grouped::<EventNumbers>::new(alloc, events)?;
    let entered = Grouped::<EnteredSublots>::new(alloc, movements)?;
    let numbered = NumberedMovements {
        greatest,
        events,
        entered,
    };
    first_fault(alloc, &numbered, movements)
}

/// The first movement or event whose number breaks the rule of numbers, `greatest` being the last one that was given. The only
/// error is that memory was refused.
fn wrong_number(
    alloc: Global,
    greatest: u64,
    events: &[BatchEvent],
    movements: &[Movement],
) -> Result<Option<RowFault>, AllocError>
    ensures { IfOk result (λ reported. reported ≡ number_fault_in greatest events.now movements.now) }
{
    let number = wrongly_numbered(alloc, greatest, events, movements)?;
    let given = first_fault(alloc, &NumberedEvents { greatest }, events)?;
    Ok(or_fault(first_line_fault(movements), or_fault(number, given)))
}

/// The row of the table, where its moment is later than the desk's.
fn moment_fault(at: Moment, table: Table, key: RowKey, moment: Moment) -> Option<RowFault>
    ensures { result ≡ moment_fault at table key moment }
{
    let found = Found::Number(moment.get());
    let fault = in_column((table, key), Column::At, found, Wanted::NotAfter(at.get()));
    fault_unless(moment.get() <= at.get(), fault)
}

/// That a row is no later than the desk.
#[derive(Clone, Copy)]
struct Timely {
    at: Moment,
}

impl RowRule<Movement> for Timely {
    ghost use Rattle.plant_check.specs.Numbers.{late_movement};

    ghost fault_of = { λ t m. late_movement t.at m };

    fn fault(&self, _alloc: Global, row: &Movement) -> Result<Option<RowFault>, AllocError> {
        let key = booked_key(row.seq, row.line);
        Ok(moment_fault(self.at, Table::Movement, key, row.at))
    }
}

impl RowRule<BatchEvent> for Timely {
    ghost use Rattle.plant_check.specs.Numbers.{late_event};

    ghost fault_of = { λ t e. late_event t.at e };

    fn fault(&self, _alloc: Global, row: &BatchEvent) -> Result<Option<RowFault>, AllocError> {
        let key = number_key(row.seq);
        Ok(moment_fault(self.at, Table::BatchEvent, key, row.at))
    }
}

impl RowRule<BatchRow> for Timely {
    ghost use Rattle.plant_check.specs.Numbers.{late_batch};

    ghost fault_of = { λ t b. late_batch t.at b };

    fn fault(&self, _alloc: Global, row: &BatchRow) -> Result<Option<RowFault>, AllocError> {
        let key = id_key(row.batch.id);
        Ok(moment_fault(self.at, Table::Batch, key, row.batch.at))
    }
}

impl RowRule<Hold> for Timely {
    ghost use Rattle.plant_check.specs.Numbers.{late_hold};

    ghost fault_of = { λ t h. late_hold t.at h };

    fn fault(&self, _alloc: Global, row: &Hold) -> Result<Option<RowFault>, AllocError> {
        Ok(moment_fault(self.at, Table::Hold, hold_key(row), row.at))
    }
}

/// The first movement, event, batch or hold that is later than the desk's moment. The only error is that memory was refused.
fn late_fault(
    alloc: Global,
    at: Moment,
    movements: &[Movement],
    events: &[BatchEvent],
    batches: &[BatchRow],
    holds: &[Hold],
) -> Result<Option<RowFault>, AllocError>
    ensures { IfOk result
        (λ reported. reported ≡ late_fault_in at movements.now events.now batches.now holds.now) }
{
    let timely = Timely { at };
    let movement = first_fault(alloc, &timely, movements)?;
    let event = first_fault(alloc, &timely, events)?;
    let batch = first_fault(alloc, &timely, batches)?;
    let hold = first_fault(alloc, &timely, holds)?;
    Ok(or_fault(movement, or_fault(event, or_fault(batch, hold))))
}

/// Whether a row isn't earlier than this one, each by its number and moment, where that has a lower number.
fn is_no_later(before: (u64, u64), row: (u64, u64)) -> bool
    ensures { result ≡ is_no_later before row }
{
    before.0 >= row.0 || before.1 <= row.1
}

/// A row with a number and a moment.
trait TimedRow {
    ghost use Rattle.std.specs.Prelude.{◌≡◌, ℕ};
    ghost use Rattle.plant_requirements.specs.{RowFault as Reported};

    /// Its number and its moment.
    ghost time_key_of: { Self → ℕ × ℕ };

    /// That it is earlier than this row.
    ghost early: { ℕ × ℕ → Self → Reported };

    /// Its number and its moment.
    fn time_key(&self) -> (u64, u64)
        ensures { result ≡ time_key_of self.now };

    /// That it is earlier than this row.
    fn as_early(&self, before: (u64, u64)) -> RowFault
        ensures { result ≡ early before self.now };
}

impl TimedRow for Movement {
    ghost use Rattle.plant_requirements.specs.{row_mark_of};
    ghost use Rattle.plant_check.specs.Numbers.{movement_before};

    ghost time_key_of = { row_mark_of };

    ghost early = { movement_before };

    fn time_key(&self) -> (u64, u64) {
        (self.seq, self.at.get())
    }

    fn as_early(&self, before: (u64, u64)) -> RowFault {
        let found = Found::Number(self.at.get());
        movement_as(self, Some(Column::At), found, Wanted::NotBefore(before.1))
    }
}

impl TimedRow for BatchEvent {
    ghost use Rattle.plant_requirements.specs.{row_mark_of_event};
    ghost use Rattle.plant_check.specs.Numbers.{event_before};

    ghost time_key_of = { row_mark_of_event };

    ghost early = { event_before };

    fn time_key(&self) -> (u64, u64) {
        (self.seq, self.at.get())
    }

    fn as_early(&self, before: (u64, u64)) -> RowFault {
        let found = Found::Number(self.at.get());
        event_as(self, Column::At, found, Wanted::NotBefore(before.1))
    }
}

/// The first row that is earlier than the one before it, which has a lower number.
fn first_fall<R: TimedRow>(rows: &[R]) -> Option<RowFault>
    ensures { result ≡ fall_fault_in R.time_key_of R.early (0, 0) rows.now }
{
    let mut before = (0, 0);
    for row in rows {
        if !is_no_later(before, row.time_key()) {
            return Some(row.as_early(before));
        }
        before = row.time_key();
    }
    None
}

/// The same row. It breaks the rule of moments, whatever other rows there are.
fn first_decreasing<R: TimedRow>(rows: &[R]) -> Option<RowFault>
    ensures reported { result ≡ fall_fault_in R.time_key_of R.early (0, 0) rows.now }
    ensures breaks { IfSome result (λ _. (others more : List (ℕ × ℕ)) → never_fall (others ++ (map R.time_key_of rows.now ++ more)) ≡ false) }
{
    first_fall(rows)
}

/// The first row whose number or moment breaks the rule: a number that wasn't given, or else a moment that is later than the
/// desk's, or else one that falls. The only error is that memory was refused.
#[tactic(auto, unfolding(plant_tables::specs::RowLists::rows_listed))]
pub(crate) fn number_fault(alloc: Global, rows: &DeskRows) -> Result<Option<RowFault>, AllocError>
    ensures { IfOk result (λ reported. reported
        ≡ numbered_fault_in (rows_listed rows.now) (movements_in rows.now.movements.items)) }
{
    let list = movements_in(alloc, rows.movements.as_slice())?;
    let (movements, events) = (list.as_slice(), rows.events.as_slice());
    let number = wrong_number(alloc, rows.meta.position.seq, events, movements)?;
    let late = late_fault(
        alloc,
        rows.meta.position.at,
        movements,
        events,
        rows.batches.as_slice(),
        rows.holds.as_slice(),
    )?;
    let fall = or_fault(first_decreasing(movements), first_decreasing(events));
    Ok(or_fault(number, or_fault(late, fall)))
}

/// Whether numbers and lines are those of commands: whether no row breaks the rule on them. The only error is that memory was refused.
fn are_numbers(
    alloc: Global,
    greatest: u64,
    events: &[BatchEvent],
    movements: &[Movement],
) -> Result<bool, AllocError>
    ensures { IfOk result (λ b. b ≡ are_numbers greatest events.now movements.now) }
{
    match wrong_number(alloc, greatest, events, movements) {
        Ok(None) => Ok(true),
        Ok(Some(_)) => Ok(false),
        Err(refused) => Err(refused),
    }
}

/// Whether no row is later than the desk's moment. The only error is that memory was refused.
fn are_by(
    alloc: Global,
    at: Moment,
    movements: &[Movement],
    events: &[BatchEvent],
    batches: &[BatchRow],
    holds: &[Hold],
) -> Result<bool, AllocError>
    ensures { IfOk result (λ b. b ≡ are_by at movements.now events.now batches.now holds.now) }
{
    match late_fault(alloc, at, movements, events, batches, holds) {
        Ok(None) => Ok(true),
        Ok(Some(_)) => Ok(false),
        Err(refused) => Err(refused),
    }
}

/// Whether numbers and lines are those of commands, no moment is later than the desk's, and moments don't fall. The only error is that
/// memory was refused.
#[tactic(auto, unfolding(plant_tables::specs::RowLists::rows_listed))]
pub(crate) fn are_right_numbers(alloc: Global, rows: &DeskRows) -> Result<bool, AllocError>
    ensures { IfOk result (λ b. b ≡ obeys rule.Numbers (rows_listed rows.now)) }
{
    let list = movements_in(alloc, rows.movements.as_slice())?;
    let (movements, events) = (list.as_slice(), rows.events.as_slice());
    if !are_numbers(alloc, rows.meta.position.seq, events, movements)? {
        return Ok(false);
    }
    let (batches, holds) = (rows.batches.as_slice(), rows.holds.as_slice());
    if !are_by(
        alloc,
        rows.meta.position.at,
        movements,
        events,
        batches,
        holds,
    )? {
        return Ok(false);
    }
    moments_never_fall(alloc, movements, events)
}
