//! What happened to batches.

ghost use Rattle.std.specs.Prelude.{◌≡◌, IfOk, map, min, count_by, Result};
ghost use Rattle.plant_recipe.specs.{is_phase, greatest_phases};
ghost use Rattle.plant_view.specs.{phases_among};
ghost use Rattle.plant_requirements.specs.Events.{kept_progress};

use crate::plan_keys::{ControlLines, control_of};
use grouped_rows::Grouped;
use plant_base::{BatchEvent, BatchRow, ControlLine, Event, Id};
use plant_recipe::{GREATEST_PHASES, Progress, is_phase};
use std::alloc::{AllocError, Global};

/// The events of the rows. The only error is that memory was refused.
pub fn events_in(alloc: Global, rows: &[BatchEvent]) -> Result<Vec<Event>, AllocError>
    ensures { IfOk result (λ events. events.items ≡ map (λ e. e.event) rows.now) }
{
    rows.iter().map(|row| row.event).collect(alloc)
}

/// How far the columns of a batch say that it has come.
pub fn kept_progress(batch: &BatchRow) -> Progress
    ensures { result ≡ kept_progress batch.now }
{
    Progress {
        state: batch.state,
        attempt: batch.attempt,
        next: batch.next,
        closed: batch.closed,
    }
}

/// How many phases the control recipe of a batch has, as far as a progress counts them.
#[tactic(auto, using(crate::proofs::CountOfConjunction::counted_among))]
pub fn phases_of(controls: &Grouped<ControlLines>, batch: Id) -> u8
    ensures { result ≡ min (phases_among controls.now.rows.now batch) greatest_phases }
{
    cap_phases(phases_in(control_of(controls, batch)))
}

fn cap_phases(phases: usize) -> u8
    ensures { result ≡ min phases greatest_phases }
{
    if phases < usize::from(GREATEST_PHASES) {
        phases as u8
    } else {
        GREATEST_PHASES
    }
}

fn phases_in(rows: &[ControlLine]) -> usize
    ensures { result ≡ count_by (λ l. is_phase l.line) rows.now }
{
    rows.iter().filter(|&&row| is_phase(row.line)).count()
}
