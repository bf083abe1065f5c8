//! Laws of a desk over its store.

ghost use Rattle.std.specs.Prelude.{◌≡◌, false};
ghost use Rattle.sqlite.specs.Held.{state};
ghost use Rattle.plant_desk_store.specs.CallContracts.{HasExecuted, HasCheckedCommand, HasAsked};
ghost use Rattle.plant_desk_store.specs.Headline.{Headline, RunsAreOutcomes};
ghost use Rattle.plant_desk_store.specs.DeskLaws.{StopsAreReopened, ValidIsNotRefused};
ghost use Rattle.plant_desk_store.specs.DeskLaws.{ValidIsAdoptedAgain, OpeningIsAdopted};
ghost use Rattle.plant_desk_store.specs.DeskLaws.{UnknownTablesAreKept, MarksAreReached};
ghost use Rattle.plant_desk_store.specs.Resent.{ExecutionsAreSendings, ExecutionsApplyOnce};
ghost use Rattle.plant_desk_store.specs.Resent.{ExecutionsApplyInOrder, StoresApplyOnce};
ghost use Rattle.plant_desk_store.specs.Replicas.{ReplicasAgree, ReplicasAnswerAlike};
ghost use Rattle.plant_desk_store.specs.Replicas.{ReplicasReplyAlike};

use crate::stored::Desk;
use plant_base::Envelope;
use plant_keeper::Keeper;
use plant_questions::{Answer, DeskFault, Question, Reply};
use plant_rules::Checked;
use sqlite::Alter;

/// The main theorem: stopped before or within any write, however often, reopening gives the tables of all acknowledged commands,
/// or of those and the ones under way; there each trace is exactly the least relation closed under recorded consumption,
/// production, split and merge, and every lot's stock is what entered less what left.
///
/// `run`: whatever a store has been through is a run of the abstract machine, in which a command is acknowledged by its reply and leads to the
/// next state, a stop leaves nothing or all of the command under way, and an opening goes on there; the store holds the tables of the machine's
/// state. `outcomes`: where runs lead is told without the machine too: each acknowledged command is taken, each other one is or isn't.
///
/// What it supposes of a call is what the call ensures: [`Desk::adopt`], [`Desk::run`], [`Desk::verify`], and `execute`,
/// `check` and `ask` of a desk, as [`execute_with_outcome`], [`check_with_outcome`] and [`ask_with_outcome`] state it.
pub fn headline_law<S: Alter>()
    ensures run { Headline S.Store }
    ensures outcomes { RunsAreOutcomes }
{}

/// Clients, any number of them, who give each command a reference and send each that was under way at a stop again, at any
/// time and after whatever others, until it is acknowledged.
///
/// `sendings`: wherever the commands of an execution may have led, a sending of just these commands leads, in which each
/// was answered by the definitions' reply, or stopped before it acted or after that. `once`: such clients' commands
/// lead, but for receipts, where the acknowledged ones lead, each taken once, in a desk without receipts; each is taken where
/// it was acknowledged, or where it was stopped before that and then there alone. `in_order`: where each that was stopped is
/// the next one of all again, each is taken where it was acknowledged. `stores`: of a state that `once` tells of are what the
/// main theorem says of a store, whatever it has been through.
pub fn resend_law<S: Alter>()
    ensures sendings { ExecutionsAreSendings }
    ensures once { ExecutionsApplyOnce }
    ensures in_order { ExecutionsApplyInOrder }
    ensures stores { StoresApplyOnce S.Store }
{}

/// Replicas: desks, over stores of any kinds, that began at the same state and were given the same commands in the same order. Each command
/// has a reference and is sent until it is acknowledged, before the next one; stops may come at any moment, and a command may be sent again
/// after it was acknowledged.
///
/// `agree`: each is at the state to which the commands lead, each taken once, in order; what the main theorem says of a store at a
/// state is so of each at that one, so those that are open hold the same tables. `replies`: each acknowledges each command by the
/// definitions' reply at its turn, however often it is sent. `alike`: two that are open give one answer to each question.
pub fn replicas_law<S: Alter, T: Alter>()
    ensures agree { ReplicasAgree S.Store T.Store }
    ensures replies { ReplicasReplyAlike S.Store }
    ensures alike { ReplicasAnswerAlike S.Store T.Store }
{}

/// Executes a command over a desk that isn't shut: the outcome, in the terms of the main theorem.
/// `Store` where the store failed; the desk is then shut, and the command is stored or not. `Memory` where memory was
/// refused; nothing has changed then.
pub fn execute_with_outcome<S: Alter>(
    desk: &mut Desk<S>,
    envelope: &Envelope,
) -> Result<Reply, DeskFault>
    requires { desk.old.is_shut ≡ false }
    ensures { HasExecuted (state S.Store desk.old.connection) (state S.Store desk.new.connection)
        desk.new.is_shut envelope.now result }
{
    desk.execute(envelope)
}

/// Checks a command at a desk that isn't shut: the outcome, in the terms of the main theorem.
/// `Store` where the store failed; `Memory` where memory was refused. The desk isn't shut by either.
pub fn check_with_outcome<S: Alter>(
    desk: &mut Desk<S>,
    envelope: &Envelope,
) -> Result<Checked, DeskFault>
    requires { desk.old.is_shut ≡ false }
    ensures reported { HasCheckedCommand (state S.Store desk.old.connection) (state S.Store desk.new.connection)
        envelope.now result }
    ensures open { desk.new.is_shut ≡ false }
{
    desk.check(envelope)
}

/// Asks a desk that isn't shut: the outcome, in the terms of the main theorem.
/// `Store` where the store failed; `Memory` where memory was refused. The desk isn't shut by either.
pub fn ask_with_outcome<S: Alter>(
    desk: &mut Desk<S>,
    question: &Question,
) -> Result<Answer, DeskFault>
    requires { desk.old.is_shut ≡ false }
    ensures reported { HasAsked (state S.Store desk.old.connection) (state S.Store desk.new.connection)
        question.now result }
    ensures open { desk.new.is_shut ≡ false }
{
    desk.ask(question)
}

/// What follows from the clauses of a desk, as laws about what they say; the function itself does nothing.
///
/// `reopened`: whatever database is opened over what a stop left, it holds the tables of the state that was to be found
/// there, in the same schema. So the states that a clause names as those that a stop leaves are those at which a desk is
/// adopted again.
/// `unrefused`: the tables of a valid state are refused by a fault of the store or for want of memory, and for nothing else.
/// `marks`: in whatever database has the tables of a state, the rows of table mark are just the pairs of an open recall
/// and a lot or batch that it reaches: the recalled lot, and what one or more edges lead to from it.
///
/// The others are of what an adoption leaves (`crash` of `Desk::adopt`), whatever it answers, once it is opened again.
/// `adopted_again`: where a valid state could be adopted, its tables are there, in the same schema or a later one, and it
/// can be adopted again; of a schema between the one that was found and the newest, where the names that later ones add are
/// still free. `opening_adopted`: where the names of the desk's tables were free, nothing was changed, or the opening state
/// can be adopted. `foreign_tables_kept`: where they weren't free and there was no valid state, nothing was changed. Foreign
/// tables are as they were.
pub fn desk_laws()
    ensures reopened { StopsAreReopened }
    ensures unrefused { ValidIsNotRefused }
    ensures marks { MarksAreReached }
    ensures adopted_again { ValidIsAdoptedAgain }
    ensures opening_adopted { OpeningIsAdopted }
    ensures foreign_tables_kept { UnknownTablesAreKept }
{}
