//! The state table of a batch.
ghost use Rattle.std.specs.Prelude.{◌≡◌};
ghost use Rattle.plant_recipe.specs.StateTable.{next_state_of, IsWholeTable};

use plant_base::{BatchState, Word};

/// The state that a word leads to from a state, and `None` where the state table has no such row.
///
/// The table is the desk's own, made after the example of procedural states and commands of IEC 61512-1.
/// [`Word::Done`] is the ending of a batch state without a command.
pub fn next_state(state: BatchState, word: Word) -> Option<BatchState>
    ensures { result ≡ next_state_of state word }
{
    match (state, word) {
        (BatchState::Idle, Word::Start) => Some(BatchState::Running),
        (BatchState::Running, Word::Done) => Some(BatchState::Complete),
        (BatchState::Running, Word::Pause) => Some(BatchState::Pausing),
        (BatchState::Pausing, Word::Done) => Some(BatchState::Paused),
        (BatchState::Paused, Word::Resume) => Some(BatchState::Running),
        (BatchState::Holding, Word::Done) => Some(BatchState::Held),
        (BatchState::Held, Word::Restart) => Some(BatchState::Restarting),
        (BatchState::Restarting, Word::Done) => Some(BatchState::Running),
        (BatchState::Stopping, Word::Done) => Some(BatchState::Stopped),
        (BatchState::Stopped, Word::Reset) => Some(BatchState::Idle),
        (BatchState::Aborting, Word::Done) => Some(BatchState::Aborted),
        (BatchState::Aborted | BatchState::Complete, Word::Reset) => Some(BatchState::Idle),
        (
            BatchState::Running | BatchState::Pausing | BatchState::Paused | BatchState::Restarting,
            Word::Hold,
        ) => Some(BatchState::Holding),
        (
            BatchState::Running
            | BatchState::Pausing
            | BatchState::Paused
            | BatchState::Holding
            | BatchState::Held
            | BatchState::Restarting,
            Word::Stop,
        ) => Some(BatchState::Stopping),
        (
            BatchState::Running
            | BatchState::Pausing
            | BatchState::Paused
            | BatchState::Holding
            | BatchState::Held
            | BatchState::Restarting
            | BatchState::Stopping
            | BatchState::Stopped,
            Word::Abort,
        ) => Some(BatchState::Aborting),
        _ => None,
    }
}

/// The state table written as rows and the moves written by cases are one, as a law that a proof above may cite: a row
/// is in the table exactly where its word leads from its first state to its second. It does nothing when it runs.
pub fn table_law()
    ensures { IsWholeTable }
{}
