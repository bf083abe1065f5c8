//! Rows of orders, batches, control recipes and events.

ghost use Rattle.std.specs.Prelude.{◌≡◌};
ghost use Rattle.sqlite.specs.Values.{bound};
ghost use Rattle.sqlite_value.specs.Value.{owned};
ghost use Rattle.plant_tables_columns.specs.Kinds.{number};
ghost use Rattle.plant_tables_columns.specs.Naming.{event_name, event_phase};
ghost use Rattle.plant_tables_columns.specs.TableColumns.{order_columns, row_of_job, job_from};
ghost use Rattle.plant_tables_columns.specs.TableColumns.{released_columns, row_of_batch};
ghost use Rattle.plant_tables_columns.specs.TableColumns.{batch_from, row_of_control_line};
ghost use Rattle.plant_tables_columns.specs.TableColumns.{control_line_from, row_of_event};
ghost use Rattle.plant_tables_columns.specs.TableColumns.{batch_event_from};

use crate::decoded::Decoded;
use crate::line::{line, line_values};
use crate::naming::{batch_state, event, job_state};
use crate::reading::{
    amount, columns, due, flag, id, line_number, moment, number, small, text, tiny,
};
use crate::storing;
use plant_base::{
    Batch, BatchEvent, BatchRow, ControlLine, Event, GREATEST_PHASE, GREATEST_PRIORITY,
    GREATEST_SEQ, GREATEST_VERSION, Job, OrderRow,
};
use plant_recipe::GREATEST_ATTEMPT;
use sqlite::Row;
use sqlite_value::value::ValueRef;

/// The order in the first columns.
fn order(row: &Row) -> Option<OrderRow>
    ensures { result ≡ order_columns.read row.now 0 }
{
    Some(OrderRow {
        order: id(row, 0)?,
        recipe: id(row, 1)?,
        version: small(row, 2, 1, GREATEST_VERSION)?,
        size: amount(row, 3)?,
        due: due(row, 4)?,
        priority: tiny(row, 5, 1, GREATEST_PRIORITY)?,
    })
}

/// A row of `job`.
pub fn job_values(row: &Job) -> [ValueRef<'_>; 7]
    ensures { bound result ≡ row_of_job row.now }
{
    let order = &row.order;
    [
        storing::id(&order.order),
        storing::id(&order.recipe),
        storing::small(order.version),
        storing::amount(order.size),
        storing::bytes(order.due.as_bytes()),
        storing::small(u16::from(order.priority)),
        storing::word(row.state.name()),
    ]
}

impl Decoded for Job {
    ghost row_from = { job_from };

    #[tactic(auto, unfolding(crate::specs::TableColumns::job_from))]
    fn decode(row: &Row) -> Option<Job> {
        columns(row, 7)?;
        Some(Job {
            order: order(row)?,
            state: job_state(row, 6)?,
        })
    }
}

/// The batch in the first columns, as it was released.
fn released_batch(row: &Row) -> Option<Batch>
    ensures { result ≡ released_columns.read row.now 0 }
{
    Some(Batch {
        id: id(row, 0)?,
        job: id(row, 1)?,
        at: moment(row, 2)?,
        by: text(row, 3)?,
        note: text(row, 4)?,
    })
}

/// A row of `batch`.
pub fn batch_values(row: &BatchRow) -> [ValueRef<'_>; 9]
    ensures { bound result ≡ row_of_batch row.now }
{
    let batch = &row.batch;
    [
        storing::id(&batch.id),
        storing::id(&batch.job),
        storing::moment(batch.at),
        storing::text(&batch.by),
        storing::text(&batch.note),
        storing::word(row.state.name()),
        storing::small(u16::from(row.attempt)),
        storing::small(u16::from(row.next)),
        storing::truth(row.closed),
    ]
}

impl Decoded for BatchRow {
    ghost row_from = { batch_from };

    #[tactic(auto, unfolding(crate::specs::TableColumns::batch_from))]
    fn decode(row: &Row) -> Option<BatchRow> {
        columns(row, 9)?;
        Some(BatchRow {
            batch: released_batch(row)?,
            state: batch_state(row, 5)?,
            attempt: tiny(row, 6, 1, GREATEST_ATTEMPT)?,
            next: tiny(row, 7, 1, GREATEST_PHASE)?,
            closed: flag(row, 8)?,
        })
    }
}

/// A row of `control_line`.
pub fn control_line_values(row: &ControlLine) -> [ValueRef<'_>; 8]
    ensures { bound result ≡ row_of_control_line row.now }
{
    let [kind, def, qty, t1, t2, t3] = line_values(&row.line);
    [
        storing::id(&row.batch),
        storing::small(row.number),
        kind,
        def,
        qty,
        t1,
        t2,
        t3,
    ]
}

impl Decoded for ControlLine {
    ghost row_from = { control_line_from };

    #[tactic(auto, unfolding(crate::specs::TableColumns::control_line_from))]
    fn decode(row: &Row) -> Option<ControlLine> {
        columns(row, 8)?;
        Some(ControlLine {
            batch: id(row, 0)?,
            number: line_number(row, 1)?,
            line: line(row, 2, 3)?,
        })
    }
}

fn word_of(event: Event) -> &'static str
    ensures { result.now ≡ event_name event }
{
    match event {
        Event::Moved(word) => word.name(),
        Event::PhaseDone(_) => "phase",
        Event::Closed => "close",
    }
}

/// The number of the phase that was done, else 0.
fn phase_of(event: Event) -> u16
    ensures { result ≡ event_phase event }
{
    match event {
        Event::PhaseDone(phase) => u16::from(phase),
        Event::Moved(_) | Event::Closed => 0,
    }
}

/// The seq is given as a value.
pub fn event_values<'a>(row: &'a BatchEvent, seq: ValueRef<'a>) -> [ValueRef<'a>; 7]
    requires { owned seq ≡ number row.now.seq }
    ensures { bound result ≡ row_of_event row.now }
{
    [
        seq,
        storing::id(&row.batch),
        storing::word(word_of(row.event)),
        storing::small(phase_of(row.event)),
        storing::moment(row.at),
        storing::text(&row.by),
        storing::text(&row.note),
    ]
}

impl Decoded for BatchEvent {
    ghost row_from = { batch_event_from };

    #[tactic(auto, unfolding(crate::specs::TableColumns::batch_event_from))]
    fn decode(row: &Row) -> Option<BatchEvent> {
        columns(row, 7)?;
        Some(BatchEvent {
            seq: number(row, 0, 0, GREATEST_SEQ)?,
            batch: id(row, 1)?,
            event: event(row, 2, 3)?,
            at: moment(row, 4)?,
            by: text(row, 5)?,
            note: text(row, 6)?,
        })
    }
}
