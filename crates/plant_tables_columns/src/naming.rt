//! The words of states and events.

ghost use Rattle.std.specs.Prelude.{◌≡◌};
ghost use Rattle.sqlite.specs.Order.{column};
ghost use Rattle.plant_base.specs.{recipe_state_name, job_state_name, batch_state_name};
ghost use Rattle.plant_tables_columns.specs.Naming.{named, all_recipe_states, all_job_states};
ghost use Rattle.plant_tables_columns.specs.Naming.{all_batch_states, recipe_state_from};
ghost use Rattle.plant_tables_columns.specs.Naming.{job_state_from, batch_state_from, word_named};
ghost use Rattle.plant_tables_columns.specs.Naming.{plain_event, event_named, event_from};

use crate::reading::{bytes, integer, tiny_within};
use plant_base::{BatchState, Event, GREATEST_PHASE, JobState, RecipeState, Word};
use sqlite::Row;

fn recipe_state_named(name: &[u8]) -> Option<RecipeState>
    ensures { result ≡ named recipe_state_name all_recipe_states name.now }
{
    [
        RecipeState::Draft,
        RecipeState::Approved,
        RecipeState::Withdrawn,
    ]
    .iter()
    .copied()
    .find(|state| state.name().as_bytes() == name)
}

/// The state of a recipe of this name.
#[tactic(auto, unfolding(crate::specs::Naming::recipe_state_from))]
pub(crate) fn recipe_state(row: &Row, at: usize) -> Option<RecipeState>
    ensures { result ≡ recipe_state_from (column row.now at) }
{
    recipe_state_named(bytes(row, at)?)
}

fn job_state_named(name: &[u8]) -> Option<JobState>
    ensures { result ≡ named job_state_name all_job_states name.now }
{
    [
        JobState::Open,
        JobState::Cancelled,
        JobState::Released,
        JobState::Finished,
    ]
    .iter()
    .copied()
    .find(|state| state.name().as_bytes() == name)
}

/// The state of an order of this name.
#[tactic(auto, unfolding(crate::specs::Naming::job_state_from))]
pub(crate) fn job_state(row: &Row, at: usize) -> Option<JobState>
    ensures { result ≡ job_state_from (column row.now at) }
{
    job_state_named(bytes(row, at)?)
}

fn batch_state_named(name: &[u8]) -> Option<BatchState>
    ensures { result ≡ named batch_state_name all_batch_states name.now }
{
    [
        BatchState::Idle,
        BatchState::Running,
        BatchState::Complete,
        BatchState::Pausing,
        BatchState::Paused,
        BatchState::Holding,
        BatchState::Held,
        BatchState::Restarting,
        BatchState::Stopping,
        BatchState::Stopped,
        BatchState::Aborting,
        BatchState::Aborted,
    ]
    .iter()
    .copied()
    .find(|state| state.name().as_bytes() == name)
}

/// The state of a batch of this name.
#[tactic(auto, unfolding(crate::specs::Naming::batch_state_from))]
pub(crate) fn batch_state(row: &Row, at: usize) -> Option<BatchState>
    ensures { result ≡ batch_state_from (column row.now at) }
{
    batch_state_named(bytes(row, at)?)
}

#[tactic(auto, unfolding(crate::specs::Naming::word_named))]
fn word_named(name: &[u8]) -> Option<Word>
    ensures { result ≡ word_named name.now }
{
    [
        Word::Start,
        Word::Stop,
        Word::Hold,
        Word::Restart,
        Word::Abort,
        Word::Reset,
        Word::Pause,
        Word::Resume,
        Word::Done,
    ]
    .iter()
    .copied()
    .find(|word| word.name().as_bytes() == name)
}

/// The event of this name that has no phase.
#[tactic(auto, unfolding(crate::specs::Naming::plain_event))]
fn plain_event(name: &[u8]) -> Option<Event>
    ensures { result ≡ plain_event name.now }
{
    if name == b"close".as_slice() {
        return Some(Event::Closed);
    }
    Some(Event::Moved(word_named(name)?))
}

/// The event of this name: a phase with its number, and every other event with the number 0.
#[tactic(auto, unfolding(crate::specs::Naming::event_named))]
fn event_named(name: &[u8], phase: &i64) -> Option<Event>
    ensures { result ≡ event_named name.now phase.now }
{
    if name == b"phase".as_slice() {
        return Some(Event::PhaseDone(tiny_within(phase, 1, GREATEST_PHASE)?));
    }
    tiny_within(phase, 0, 0)?;
    plain_event(name)
}

/// The event of the word in the one column and the number of a phase in the other.
#[tactic(auto, unfolding(crate::specs::Naming::event_from))]
pub(crate) fn event(row: &Row, word: usize, phase: usize) -> Option<Event>
    ensures { result ≡ event_from (column row.now word) (column row.now phase) }
{
    let name = bytes(row, word)?;
    let number = integer(row, phase)?;
    event_named(name, &number)
}
