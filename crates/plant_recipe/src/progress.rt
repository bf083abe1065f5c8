//! The progress of a batch.
ghost use Rattle.std.specs.Prelude.{◌≡◌};
ghost use Rattle.plant_recipe.specs.Progress.{is_running, is_ended, is_done, is_reset};
ghost use Rattle.plant_recipe.specs.Progress.{is_phase_left, opening_progress, turn_moved};
ghost use Rattle.plant_recipe.specs.Progress.{turn_phase_done, turn_closed, turn, run_of};
ghost use Rattle.plant_recipe.specs.Progress.{ClosingIsFinal, StaysInRange, NeverFalls, GoesAlong};

use crate::table::next_state;
use plant_base::{BatchState, Event, Refusal, Word};

/// The greatest number of an attempt.
pub const GREATEST_ATTEMPT: u8 = 99;

/// The greatest number of phases of a recipe: of its 128 lines one at least is an output.
pub const GREATEST_PHASES: u8 = 127;

/// How far a batch has come: the fold of its events.
#[derive(Clone, Copy, Debug, PartialEq, Eq)]
pub struct Progress {
    /// The procedural state.
    pub state: BatchState,
    /// 1 to 99.
    pub attempt: u8,
    /// The next phase, 1 to 128: one above the number of phases where all are done.
    pub next: u8,
    /// Whether the batch was closed; it then accepts no event.
    pub closed: bool,
}

impl Progress {
    /// The progress of a batch that was just released: idle, at its first attempt and its first phase, and open.
    pub fn opening() -> Self
        ensures { result ≡ opening_progress }
    {
        Progress {
            state: BatchState::Idle,
            attempt: 1,
            next: 1,
            closed: false,
        }
    }

    /// What an event makes of the progress of a batch whose control recipe has so many phases, at most
    /// [`GREATEST_PHASES`]; a greater number counts as that. No memory is taken.
    ///
    /// A refused event has the first condition of its line that fails:
    ///
    /// - a move: `BadMove` where the state table has no such row, `PhasesLeft` where the running ends by
    ///   [`Word::Done`] while a phase is left, `BatchClosed`, `TooMany` for a reset at attempt 99;
    /// - a phase that was done: `NotNextPhase` where it isn't the next one or none is left, `BatchClosed`, `WrongState`
    ///   where the batch isn't running;
    /// - the closing: `BatchClosed`, `NotFinished` where the batch is neither complete nor stopped nor aborted.
    pub fn apply(self, event: Event, phases: u8) -> Result<Self, Refusal>
        ensures { result ≡ turn phases self event }
    {
        match event {
            Event::Moved(word) => self.after_word(word, phases),
            Event::PhaseDone(number) => self.after_phase(number, phases),
            Event::Closed => self.after_closing(),
        }
    }

    /// The progress that the events of a batch make up from the opening on, in their order. Where an event is refused
    /// at its position, its refusal. No memory is taken.
    #[tactic(auto, unfolding(crate::specs::Progress::run_of))]
    pub fn of_events(events: &[Event], phases: u8) -> Result<Self, Refusal>
        ensures { result ≡ run_of phases events.now }
    {
        let mut progress = Progress::opening();
        for event in events {
            progress = progress.apply(*event, phases)?;
        }
        Ok(progress)
    }

    #[tactic(auto, unfolding(crate::specs::Progress::turn_moved))]
    fn after_word(self, word: Word, phases: u8) -> Result<Self, Refusal>
        ensures { result ≡ turn_moved phases self word }
    {
        let Some(state) = next_state(self.state, word) else {
            return Err(Refusal::BadMove);
        };
        if is_done_word(word) && is_running_state(self.state) && self.has_phase_left(phases) {
            return Err(Refusal::PhasesLeft);
        }
        if self.closed {
            return Err(Refusal::BatchClosed);
        }
        if is_reset_word(word) {
            if self.attempt >= GREATEST_ATTEMPT {
                return Err(Refusal::TooMany);
            }
            return Ok(Progress {
                state,
                attempt: self.attempt + 1,
                next: 1,
                closed: self.closed,
            });
        }
        Ok(Progress { state, ..self })
    }

    #[tactic(auto, unfolding(crate::specs::Progress::turn_phase_done))]
    fn after_phase(self, number: u8, phases: u8) -> Result<Self, Refusal>
        ensures { result ≡ turn_phase_done phases self number }
    {
        if !(number == self.next && self.has_phase_left(phases)) {
            return Err(Refusal::NotNextPhase);
        }
        if self.closed {
            return Err(Refusal::BatchClosed);
        }
        if !is_running_state(self.state) {
            return Err(Refusal::WrongState);
        }
        Ok(Progress {
            next: self.next + 1,
            ..self
        })
    }

    #[tactic(auto, unfolding(crate::specs::Progress::turn_closed))]
    fn after_closing(self) -> Result<Self, Refusal>
        ensures { result ≡ turn_closed self }
    {
        if self.closed {
            return Err(Refusal::BatchClosed);
        }
        if !is_ended_state(self.state) {
            return Err(Refusal::NotFinished);
        }
        Ok(Progress {
            closed: true,
            ..self
        })
    }

    fn has_phase_left(self, phases: u8) -> bool
        ensures { result ≡ is_phase_left phases self }
    {
        self.next <= phases && self.next <= GREATEST_PHASES
    }
}

fn is_running_state(state: BatchState) -> bool
    ensures { result ≡ is_running state }
{
    matches!(state, BatchState::Running)
}

fn is_ended_state(state: BatchState) -> bool
    ensures { result ≡ is_ended state }
{
    matches!(
        state,
        BatchState::Complete | BatchState::Stopped | BatchState::Aborted
    )
}

fn is_done_word(word: Word) -> bool
    ensures { result ≡ is_done word }
{
    matches!(word, Word::Done)
}

fn is_reset_word(word: Word) -> bool
    ensures { result ≡ is_reset word }
{
    matches!(word, Word::Reset)
}

/// What holds of every progress, as a law that a proof above may cite. It does nothing when it runs.
///
/// - `closed`: a closed batch accepts no event.
/// - `range`: what events make up from the opening on has an attempt of 1 to 99 and a next phase of 1 to 128, at most
///   one above the number of phases; where it is complete no phase is left; where it is closed it is complete, stopped
///   or aborted.
/// - `attempt`: more events never lower the attempt.
/// - `total`: where no event is refused, the fold that passes refused events over is the fold.
pub fn progress_laws()
    ensures closed { ClosingIsFinal }
    ensures range { StaysInRange }
    ensures attempt { NeverFalls }
    ensures total { GoesAlong }
{}
