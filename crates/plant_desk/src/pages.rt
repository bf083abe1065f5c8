// Pages of the lists: what comes after a cursor, by the order of the rows; the movements of a lot; and pages of what lots have.
ghost use Rattle.std.specs.Prelude.{◌≡◌, ◌+◌, filter, map, take, IfOk};
ghost use Rattle.plant_view.specs.{batch_row, is_named};
ghost use Rattle.plant_questions.specs.{page_size, is_after, is_batch_in, is_recall_in, lot_made};
ghost use Rattle.plant_questions.specs.{due_order, is_due_in, number_order, is_number_after};
ghost use Rattle.plant_questions.specs.{in_order};

use crate::batches::batch_row;
use crate::keys::copy_of;
use crate::lots::{left_in, movements_into, movements_of_lot, stocked};
use crate::view::ListsView;
use plant_base::{
    Batch, BatchEvent, BatchRow, Class, ControlLine, Definition, Due, Hold, Id, Job, JobState, Lot,
    Movement, MovementKind, Place, Recall, Receipt, Recipe, RecipeState, Sublot,
};
use plant_questions::{
    ByDue, ByNumber, Cursor, PAGE_SIZE, Page, Worklists, first_page, in_order, is_after,
    is_due_after, is_movement_after, is_number_after, is_recipe_after,
};
use std::alloc::{AllocError, Global};

impl<'a> Worklists for ListsView<'a> {
    fn orders_in(&mut self, state: JobState, cursor: Option<Id>) -> Result<Page<Job>, AllocError> {
        let rows = self
            .lists
            .jobs
            .iter()
            .copied()
            .filter(|job| job.state.name() == state.name() && is_after(&job.order.order, &cursor))
            .collect(self.lists.alloc)?;
        Ok(first_page(rows))
    }

    fn orders_by_due(
        &mut self,
        state: JobState,
        cursor: Option<Cursor<Due, Id>>,
    ) -> Result<Page<Job>, AllocError> {
        let rows = due_in(self.lists.alloc, &self.lists.jobs, state, cursor)?;
        Ok(first_page(rows))
    }

    fn receipts_after(&mut self, cursor: Option<u64>) -> Result<Page<Receipt>, AllocError> {
        let rows = receipts_behind(self.lists.alloc, &self.lists.receipts, cursor)?;
        Ok(first_page(rows))
    }

    fn batches_in(
        &mut self,
        closed: bool,
        cursor: Option<Id>,
    ) -> Result<Page<BatchRow>, AllocError> {
        let lists = self.lists;
        let rows = batches_in(
            lists.alloc,
            &lists.batches,
            &lists.control_lines,
            &lists.events,
            closed,
            cursor,
        )?;
        Ok(first_page(rows))
    }

    fn lots_of(&mut self, def: Id, cursor: Option<Id>) -> Result<Page<Lot>, AllocError> {
        let rows = self
            .lists
            .lots
            .iter()
            .copied()
            .filter(|lot| lot.def == def && is_after(&lot.id, &cursor))
            .collect(self.lists.alloc)?;
        Ok(first_page(rows))
    }

    fn holds_on(&mut self, lot: Id, cursor: Option<Id>) -> Result<Page<Hold>, AllocError> {
        let rows = self
            .lists
            .holds
            .iter()
            .copied()
            .filter(|hold| hold.lot == lot && is_after(&hold.id, &cursor))
            .collect(self.lists.alloc)?;
        Ok(first_page(rows))
    }

    fn recalls_in(
        &mut self,
        are_open: bool,
        cursor: Option<Id>,
    ) -> Result<Page<Recall>, AllocError> {
        let rows = self
            .lists
            .recalls
            .iter()
            .copied()
            .filter(|recall| is_recall_in(recall, are_open, &cursor))
            .collect(self.lists.alloc)?;
        Ok(first_page(rows))
    }

    fn classes_after(&mut self, cursor: Option<Id>) -> Result<Page<Class>, AllocError> {
        let rows = self
            .lists
            .classes
            .iter()
            .copied()
            .filter(|class| is_after(&class.id, &cursor))
            .collect(self.lists.alloc)?;
        Ok(first_page(rows))
    }

    fn definitions_in(
        &mut self,
        class: Id,
        cursor: Option<Id>,
    ) -> Result<Page<Definition>, AllocError> {
        let rows = self
            .lists
            .definitions
            .iter()
            .copied()
            .filter(|definition| definition.class == class && is_after(&definition.id, &cursor))
            .collect(self.lists.alloc)?;
        Ok(first_page(rows))
    }

    fn recipes_in(
        &mut self,
        state: RecipeState,
        cursor: Option<Cursor<Id, u16>>,
    ) -> Result<Page<Recipe>, AllocError> {
        let rows = self
            .lists
            .recipes
            .iter()
            .copied()
            .filter(|row| row.state.name() == state.name() && is_recipe_after(row, &cursor))
            .collect(self.lists.alloc)?;
        Ok(first_page(rows))
    }

    fn ledger_of(
        &mut self,
        lot: Id,
        cursor: Option<Cursor<u64, u16>>,
    ) -> Result<Page<Movement>, AllocError> {
        let rows = self
            .lists
            .movements
            .iter()
            .copied()
            .filter(|row| {
                (row.lot == lot || makes_lot(row.kind, lot)) && is_movement_after(row, &cursor)
            })
            .collect(self.lists.alloc)?;
        Ok(first_page(rows))
    }

    fn movements_into(&mut self, lot: Id) -> Result<Vec<Movement>, AllocError> {
        movements_into(self.lists.alloc, &self.lists.movements, lot)
    }

    fn movements_of_lot(&mut self, lot: Id) -> Result<Vec<Movement>, AllocError> {
        movements_of_lot(self.lists.alloc, &self.lists.movements, lot)
    }

    fn lots_after(&mut self, cursor: Option<Id>) -> Result<Page<Lot>, AllocError> {
        let rows = lots_beyond(self.lists.alloc, &self.lists.lots, cursor)?;
        Ok(first_page(rows))
    }

    // The stock of each sublot is counted by all movements: of as many as a page has, and one more.
    fn sublots_after(&mut self, cursor: Option<Id>) -> Result<Page<Sublot>, AllocError> {
        let lists = self.lists;
        let places = sublots_beyond(lists.alloc, &lists.places, cursor)?;
        let rows = stocked(lists.alloc, places.as_slice(), &lists.movements)?;
        Ok(first_page(rows))
    }

    // The stock of each sublot is counted by all movements.
    fn sublots_in_stock(&mut self) -> Result<Vec<Sublot>, AllocError> {
        let lists = self.lists;
        let rows = stocked(lists.alloc, &lists.places, &lists.movements)?;
        left_in(lists.alloc, rows.as_slice())
    }

    fn holds_after(&mut self, cursor: Option<Id>) -> Result<Page<Hold>, AllocError> {
        let rows = holds_beyond(self.lists.alloc, &self.lists.holds, cursor)?;
        Ok(first_page(rows))
    }

    fn definitions_after(&mut self, cursor: Option<Id>) -> Result<Page<Definition>, AllocError> {
        let rows = self
            .lists
            .definitions
            .iter()
            .copied()
            .filter(|definition| is_after(&definition.id, &cursor))
            .collect(self.lists.alloc)?;
        Ok(first_page(rows))
    }

    fn orders_after(&mut self, cursor: Option<Id>) -> Result<Page<Job>, AllocError> {
        let rows = self
            .lists
            .jobs
            .iter()
            .copied()
            .filter(|job| is_after(&job.order.order, &cursor))
            .collect(self.lists.alloc)?;
        Ok(first_page(rows))
    }

    fn batches_after(&mut self, cursor: Option<Id>) -> Result<Page<BatchRow>, AllocError> {
        let lists = self.lists;
        let rows = batches_beyond(
            lists.alloc,
            &lists.batches,
            &lists.control_lines,
            &lists.events,
            cursor,
        )?;
        Ok(first_page(rows))
    }

    fn recalls_after(&mut self, cursor: Option<Id>) -> Result<Page<Recall>, AllocError> {
        let rows = self
            .lists
            .recalls
            .iter()
            .copied()
            .filter(|recall| is_after(&recall.id, &cursor))
            .collect(self.lists.alloc)?;
        Ok(first_page(rows))
    }

    fn recipes_after(&mut self, cursor: Option<Id>) -> Result<Page<Recipe>, AllocError> {
        let rows = self
            .lists
            .recipes
            .iter()
            .copied()
            .filter(|row| is_after(&row.header.recipe, &cursor))
            .collect(self.lists.alloc)?;
        Ok(first_page(rows))
    }

    fn versions_of(&mut self, recipe: Id) -> Result<Vec<Recipe>, AllocError> {
        self.lists
            .recipes
            .iter()
            .copied()
            .filter(|row| row.header.recipe == recipe)
            .collect(self.lists.alloc)
    }
}

// ---- which rows a list means

fn is_batch_in(row: &BatchRow, closed: bool, cursor: &Option<Id>) -> bool
    ensures { result ≡ is_batch_in closed cursor.now row.now }
{
    row.closed == closed && is_after(&row.batch.id, cursor)
}

fn is_recall_in(row: &Recall, are_open: bool, cursor: &Option<Id>) -> bool
    ensures { result ≡ is_recall_in are_open cursor.now row.now }
{
    row.is_open() == are_open && is_after(&row.id, cursor)
}

// Whether a split or a part of a merge makes this lot.
fn makes_lot(kind: MovementKind, lot: Id) -> bool
    ensures { result ≡ is_named lot (lot_made kind) }
{
    match kind {
        MovementKind::Split { to } | MovementKind::Merged { to } => to == lot,
        _ => false,
    }
}

// ---- what takes more than a filter, and what is of the lots that come after one

fn batches_in(
    alloc: Global,
    batches: &[Batch],
    lines: &[ControlLine],
    events: &[BatchEvent],
    closed: bool,
    cursor: Option<Id>,
) -> Result<Vec<BatchRow>, AllocError>
    ensures { IfOk result (λ v. v.items
        ≡ filter (is_batch_in closed cursor) (map (batch_row lines.now events.now) batches.now)) }
{
    batches
        .iter()
        .map(|batch| batch_row(lines, events, *batch))
        .filter(|row| is_batch_in(row, closed, &cursor))
        .collect(alloc)
}

fn batches_beyond(
    alloc: Global,
    batches: &[Batch],
    lines: &[ControlLine],
    events: &[BatchEvent],
    cursor: Option<Id>,
) -> Result<Vec<BatchRow>, AllocError>
    ensures { IfOk result (λ v. v.items
        ≡ filter (λ r. is_after cursor r.batch.id) (map (batch_row lines.now events.now) batches.now)) }
{
    batches
        .iter()
        .map(|batch| batch_row(lines, events, *batch))
        .filter(|row| is_after(&row.batch.id, &cursor))
        .collect(alloc)
}

// The orders in a state that come after a cursor, by their due dates.
fn due_in(
    alloc: Global,
    jobs: &[Job],
    state: JobState,
    cursor: Option<Cursor<Due, Id>>,
) -> Result<Vec<Job>, AllocError>
    ensures { IfOk result (λ v. v.items ≡ in_order due_order (filter (is_due_in state cursor) jobs.now)) }
{
    let rows = jobs_due(alloc, jobs, state, cursor)?;
    let sorted = in_order(alloc, rows)?;
    jobs_of(alloc, sorted.as_slice())
}

fn jobs_due(
    alloc: Global,
    jobs: &[Job],
    state: JobState,
    cursor: Option<Cursor<Due, Id>>,
) -> Result<Vec<ByDue>, AllocError>
    ensures { IfOk result
        (λ v. map (λ r. r.0) v.items ≡ filter (is_due_in state cursor) jobs.now) }
{
    let mut rows = Vec::new(alloc);
    for job in jobs {
        if is_due_in(job, state, &cursor) {
            rows.push(ByDue(*job))?;
        }
    }
    Ok(rows)
}

fn is_due_in(job: &Job, state: JobState, cursor: &Option<Cursor<Due, Id>>) -> bool
    ensures { result ≡ is_due_in state cursor.now job.now }
{
    job.state.name() == state.name() && is_due_after(job, cursor)
}

fn jobs_of(alloc: Global, rows: &[ByDue]) -> Result<Vec<Job>, AllocError>
    ensures { IfOk result (λ v. v.items ≡ map (λ r. r.0) rows.now) }
{
    rows.iter().map(|row| row.0).collect(alloc)
}

// The receipts that come after a number, by their numbers.
fn receipts_behind(
    alloc: Global,
    receipts: &[Receipt],
    cursor: Option<u64>,
) -> Result<Vec<Receipt>, AllocError>
    ensures { IfOk result
        (λ v. v.items ≡ in_order number_order (filter (is_number_after cursor) receipts.now)) }
{
    let rows = copies_after(alloc, receipts, cursor)?;
    let sorted = in_order(alloc, rows)?;
    receipts_of(alloc, sorted.as_slice())
}

fn receipts_of(alloc: Global, rows: &[ByNumber]) -> Result<Vec<Receipt>, AllocError>
    ensures { IfOk result (λ v. v.items ≡ map (λ r. r.0) rows.now) }
{
    let mut receipts = Vec::new(alloc);
    for row in rows {
        let receipt = copy_of(alloc, &row.0)?;
        receipts.push(receipt)?;
    }
    Ok(receipts)
}

fn copies_after(
    alloc: Global,
    receipts: &[Receipt],
    cursor: Option<u64>,
) -> Result<Vec<ByNumber>, AllocError>
    ensures { IfOk result
        (λ v. map (λ r. r.0) v.items ≡ filter (is_number_after cursor) receipts.now) }
{
    let mut rows = Vec::new(alloc);
    for receipt in receipts {
        if is_number_after(receipt, cursor) {
            let row = copy_of(alloc, receipt)?;
            rows.push(ByNumber(row))?;
        }
    }
    Ok(rows)
}

fn lots_beyond(alloc: Global, lots: &[Lot], cursor: Option<Id>) -> Result<Vec<Lot>, AllocError>
    ensures { IfOk result (λ v. v.items ≡ filter (λ l. is_after cursor l.id) lots.now) }
{
    lots.iter()
        .copied()
        .filter(|lot| is_after(&lot.id, &cursor))
        .collect(alloc)
}

// As many as a page has and one more: the stock of each is counted by all movements.
fn sublots_beyond(
    alloc: Global,
    places: &[Place],
    cursor: Option<Id>,
) -> Result<Vec<Place>, AllocError>
    ensures { IfOk result
        (λ v. v.items ≡ take (page_size + 1) (filter (λ p. is_after cursor p.lot) places.now)) }
{
    places
        .iter()
        .copied()
        .filter(|place| is_after(&place.lot, &cursor))
        .take(usize::from(PAGE_SIZE) + 1)
        .collect(alloc)
}

fn holds_beyond(alloc: Global, holds: &[Hold], cursor: Option<Id>) -> Result<Vec<Hold>, AllocError>
    ensures { IfOk result (λ v. v.items ≡ filter (λ h. is_after cursor h.lot) holds.now) }
{
    holds
        .iter()
        .copied()
        .filter(|hold| is_after(&hold.lot, &cursor))
        .collect(alloc)
}
