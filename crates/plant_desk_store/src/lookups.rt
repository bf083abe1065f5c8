//! Decisions, checks and answers by lookups: of a store only the rows are read that a command or a question names.

ghost use Rattle.std.specs.Prelude.{◌≡◌, ◌≤◌, ⊤, IfOk, OnOk, IsTrue};
ghost use Rattle.sqlite.specs.Held.{state};
ghost use Rattle.sqlite.specs.State.{HasCleanDisk};
ghost use Rattle.plant_base.specs.{State, newest_schema, greatest_seq};
ghost use Rattle.plant_view.specs.{PutsOneBatch};
ghost use Rattle.plant_rules.specs.{checked};
ghost use Rattle.plant_answers.specs.{answer};
ghost use Rattle.plant_keyed.specs.{PreservesFrame, IsCacheOf};
ghost use Rattle.plant_desk_store.specs.Lookups.{IsDecidedAt};
ghost use Rattle.plant_desk_store.specs.PrivateContracts.{HasDecided, HasLookedUpCheck, HasAnswered, HasLookedUp};
ghost use Rattle.plant_desk_store.specs.DeskStates.{ShowsState};

use crate::faults::looked_up;
use plant_answers::answer;
use plant_base::Envelope;
use plant_keyed::{Keyed, LookupCache};
use plant_questions::{Answer, DeskFault, Question};
use plant_rules::{Checked, check, decide};
use plant_trace::Edges;
use plant_view::{Decision, ViewFault};
use sql_tables::StoreFault;
use sqlite::{Alter, Connection};
use std::alloc::Global;

/// A decision, and how many commands were accepted before it.
#[derive(Drop)]
pub(crate) struct Decided {
    /// How many commands were accepted before, 0 to [`GREATEST_SEQ`](plant_base::GREATEST_SEQ).
    pub seq: u64,
    /// What is decided: changes of rows, a refusal, or a repeat.
    pub decision: Decision,
}

/// Decides a command over the tables of a store. Store where a lookup fails, Memory where there is none. Nothing is
/// changed.
pub(crate) fn decide_on<S: Alter>(
    alloc: Global,
    connection: &mut Connection<S>,
    envelope: &Envelope,
) -> Result<Decided, DeskFault>
    ensures { HasDecided (state S.Store connection.old) (state S.Store connection.new) envelope.now
        result }
{
    over_view(alloc, connection, &Deciding { envelope })
}

/// Says what would become of a command over the tables of a store, by the rows that it names. Store where a lookup fails,
/// Memory where there is none. Nothing is changed.
pub(crate) fn check_on<S: Alter>(
    alloc: Global,
    connection: &mut Connection<S>,
    envelope: &Envelope,
) -> Result<Checked, DeskFault>
    ensures { HasLookedUpCheck (state S.Store connection.old) (state S.Store connection.new) envelope.now
        result }
{
    over_view(alloc, connection, &Checking { envelope })
}

/// Answers a question over the tables of a store: a trace reads the edges that it follows, or all of them once where they
/// are many. Store where a lookup fails, Memory where there is none. Nothing is changed.
pub(crate) fn answer_on<S: Alter>(
    alloc: Global,
    connection: &mut Connection<S>,
    question: &Question,
) -> Result<Answer, DeskFault>
    ensures { HasAnswered (state S.Store connection.old) (state S.Store connection.new) question.now
        result }
{
    over_view(alloc, connection, &Asking { question })
}

/// What is looked up in the rows of a store: a decision, a check or an answer.
trait OverView {
    ghost use Rattle.std.specs.Prelude.{◌≡◌, ◌≤◌, IfOk};
    ghost use Rattle.sqlite.specs.Held.{state};
    ghost use Rattle.plant_base.specs.{State, greatest_seq};
    ghost use Rattle.plant_trace.specs.ReadOnly.{ReadOnly};
    ghost use Rattle.plant_view.specs.DecisionInvariant.{DecisionInvariant};
    ghost use Rattle.plant_keyed.specs.{abstraction};

    /// What it comes to, where no lookup fails.
    type Outcome: Drop;

    /// What is right at a state.
    ghost is_right: { State → Self → Self.Outcome → Type 0 };

    /// What is so of each outcome, also where the lookups aren't honest.
    ghost is_formed: { Self.Outcome → Type 0 };

    /// The outcome by lookups over a view, where so many commands were accepted before.
    fn look_up<'k, S: Alter>(
        &self,
        alloc: Global,
        view: &mut Keyed<'k, S>,
        seq: u64,
    ) -> Result<Self::Outcome, ViewFault<StoreFault>>
        ensures right { ReadOnly ⟦<Keyed<'k, S> as Edges>⟧ view.old view.new
            (DecisionInvariant (abstraction (state S.Store view.old.conn.now).now)
            → seq ≡ (abstraction (state S.Store view.old.conn.now).now).seq
            → IfOk result (is_right (abstraction (state S.Store view.old.conn.now).now) self.now)) }
        ensures formed { seq ≤ greatest_seq → IfOk result is_formed };
}

/// The decision of a command, as it is looked up.
#[derive(Drop)]
struct Deciding<'a> {
    envelope: &'a Envelope,
}

impl<'a> OverView for Deciding<'a> {
    type Outcome = Decided;

    ghost is_right = { λ s it d. IsDecidedAt s it.envelope.now d };

    ghost is_formed = { λ d. PutsOneBatch d.decision × (d.seq ≤ greatest_seq) };

    fn look_up<'k, S: Alter>(
        &self,
        alloc: Global,
        view: &mut Keyed<'k, S>,
        seq: u64,
    ) -> Result<Decided, ViewFault<StoreFault>> {
        let decision = decide(alloc, view, self.envelope)?;
        Ok(Decided { seq, decision })
    }
}

/// The check of a command, as it is looked up.
#[derive(Drop)]
struct Checking<'a> {
    envelope: &'a Envelope,
}

impl<'a> OverView for Checking<'a> {
    type Outcome = Checked;

    ghost is_right = { λ s it c. c ≡ checked s it.envelope.now };

    ghost is_formed = { λ _. ⊤ };

    fn look_up<'k, S: Alter>(
        &self,
        alloc: Global,
        view: &mut Keyed<'k, S>,
        _seq: u64,
    ) -> Result<Checked, ViewFault<StoreFault>> {
        check(alloc, view, self.envelope)
    }
}

/// The answer to a question, as it is looked up.
#[derive(Drop)]
struct Asking<'a> {
    question: &'a Question,
}

impl<'a> OverView for Asking<'a> {
    type Outcome = Answer;

    ghost is_right = { λ s it a. a ≡ answer newest_schema s it.question.now };

    ghost is_formed = { λ _. ⊤ };

    fn look_up<'k, S: Alter>(
        &self,
        alloc: Global,
        view: &mut Keyed<'k, S>,
        _seq: u64,
    ) -> Result<Answer, ViewFault<StoreFault>> {
        answer(alloc, view, self.question)
    }
}

/// The outcome over the tables of a store. Store where a lookup fails, Memory where there is none. Nothing is changed.
fn over_view<T: OverView, S: Alter>(
    alloc: Global,
    connection: &mut Connection<S>,
    asked: &T,
) -> Result<T::Outcome, DeskFault>
    ensures { HasLookedUp (λ s. T.is_right s asked.now) T.is_formed (state S.Store connection.old)
        (state S.Store connection.new) result }
{
    let mut cache = LookupCache::unread(alloc);
    let mut view = Keyed::new(alloc, connection, &mut cache);
    looked_up(outcome_over(alloc, &mut view, asked))
}

/// The outcome by lookups. `View` where one of them fails, with its fault; `Memory` where there is none for what is made of
/// their rows.
fn outcome_over<T: OverView, S: Alter>(
    alloc: Global,
    view: &mut Keyed<'_, S>,
    asked: &T,
) -> Result<T::Outcome, ViewFault<StoreFault>>
    ensures same_reference { view.new.conn.ghost_name ≡ view.old.conn.ghost_name }
    ensures frame { PreservesFrame (state S.Store view.old.conn.now) (state S.Store view.new.conn.now)
        view.old.has_failed view.new.has_failed }
    ensures right { HasCleanDisk (state S.Store view.new.conn.now) → (s : State)
        → ShowsState (state S.Store view.old.conn.now) s → IsCacheOf s view.old.cache.now
        → IfOk result (T.is_right s asked.now) }
    ensures formed { IfOk result T.is_formed }
    ensures is_live { HasCleanDisk (state S.Store view.new.conn.now)
        → OnOk result (IsTrue (state S.Store view.new.conn.now).is_open) }
{
    // A position that was read shows that the connection is open.
    let position = view.read_position().map_err(ViewFault::View)?;
    let outcome = asked.look_up(alloc, view, position.seq)?;
    // That nothing is said after a lookup failed isn't a clause of `look_up`.
    if view.has_failed {
        return Err(ViewFault::View(StoreFault::Store));
    }
    Ok(outcome)
}
