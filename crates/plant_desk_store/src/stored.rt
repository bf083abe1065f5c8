ghost use Rattle.std.specs.Prelude.{◌≡◌, false};
ghost use Rattle.plant_keeper.specs.{shuts};

use crate::digest::Digest;
use crate::executing::execute_on;
use crate::indexing::index_on;
use crate::lookups::{answer_on, check_on};
use crate::running::run_over;
use crate::verifying::verify_on;
use plant_base::{Envelope, Items};
use plant_check_rules::Rule;
use plant_keeper::{Keeper, RunReport};
use plant_questions::{Answer, DeskFault, Question, Reply};
use plant_rules::Checked;
use sqlite::{Alter, Connection};
use std::alloc::Global;

/// A desk over its file: its state is in the tables of one store.
///
/// A command or a question reads the rows that it names, and a trace all edges, where they are many. Nothing of the state is kept between
/// calls but whether the desk is shut, and the digest of the receipts.
#[derive(Drop)]
pub struct Desk<S: Alter> {
    pub(crate) alloc: Global,
    pub(crate) connection: Connection<S>,
    pub(crate) is_shut: bool,
    pub(crate) digest: Digest,
    ghost rests: { connection.in_transaction ≡ false },
}

impl<S: Alter> Desk<S> {
    ghost use Rattle.std.specs.Prelude.{◌≡◌, [], true, false, Some, IsErrOf};
    ghost use Rattle.sqlite.specs.Held.{state};
    ghost use Rattle.plant_desk_store.specs.CallContracts.{HasRun, HasVerified, HasIndexed};

    /// Executes commands in order, up to the first fault. Room for the replies is taken first; where it is refused,
    /// nothing is executed. A desk that is shut gives no replies, ends `Shut` and stays as it is; no other ends so.
    pub fn run(&mut self, list: &[Envelope]) -> RunReport
        ensures ran { self.old.is_shut ≡ false → HasRun (state S.Store self.old.connection)
            (state S.Store self.new.connection) self.new.is_shut list.now result.replies result.end }
        ensures shut { self.old.is_shut ≡ true
            → (result.replies ≡ []) × (result.end ≡ Some DeskFault.Shut) }
        ensures unchanged { self.old.is_shut ≡ true → self.new ≡ self.old }
    {
        if self.is_shut {
            return RunReport {
                replies: Items::new(Vec::new(self.alloc)),
                end: Some(DeskFault::Shut),
            };
        }
        run_over(self.alloc, self, list)
    }

    /// Reads and tests all tables: the first rule that they break. A desk whose store has kept its specification answers
    /// `None`, or a fault: `Store` where a table isn't declared any more as its definition says, and where the store
    /// fails; `Memory`; `Shut` exactly from a desk that is shut. Nothing is changed, and an open desk stays open.
    pub fn verify(&mut self) -> Result<Option<Rule>, DeskFault>
        ensures verified { self.old.is_shut ≡ false → HasVerified (state S.Store self.old.connection)
            (state S.Store self.new.connection) result }
        ensures open { self.new.is_shut ≡ self.old.is_shut }
        ensures shut { self.old.is_shut ≡ true → IsErrOf result DeskFault.Shut }
        ensures unchanged { self.old.is_shut ≡ true → self.new ≡ self.old }
    {
        if self.is_shut {
            return Err(DeskFault::Shut);
        }
        verify_on(self.alloc, &mut self.connection)
    }

    /// Makes the indexes that the tables lack whose names are free, in one transaction: those of a file that was made
    /// before there were such. They are there for speed alone, so that a desk represents what it represented, and is as
    /// open as it was, also where they can't be made: `Store` where the store fails; `Memory` where there is none; `Shut`
    /// exactly from a desk that is shut. Where no name is free nothing is written.
    pub fn add_indexes(&mut self) -> Result<(), DeskFault>
        ensures indexed { self.old.is_shut ≡ false → HasIndexed (state S.Store self.old.connection)
            (state S.Store self.new.connection) result }
        ensures open { self.new.is_shut ≡ self.old.is_shut }
        ensures shut { self.old.is_shut ≡ true → IsErrOf result DeskFault.Shut }
        ensures unchanged { self.old.is_shut ≡ true → self.new ≡ self.old }
    {
        if self.is_shut {
            return Err(DeskFault::Shut);
        }
        index_on(self.alloc, &mut self.connection)
    }

    /// Whether a fault of the store has shut the desk: then each command and question is answered `Shut`.
    pub fn is_shut(&self) -> bool
        ensures { result ≡ self.now.is_shut }
    {
        self.is_shut
    }

    /// The digest of the commands that were accepted under references: of those in the tables when they were adopted, and of those since. That of
    /// a desk that is shut may lack the last one.
    pub fn digest(&self) -> Digest
        ensures { result ≡ self.now.digest }
    {
        self.digest
    }

    /// Gives the store back. No memory is taken.
    pub fn close(self) -> Connection<S>
        ensures { result ≡ self.connection }
    {
        let Desk { connection, .. } = self;
        connection
    }
}

/// Whether a command was answered a fault of the store.
fn is_store_fault(answer: &Result<Reply, DeskFault>) -> bool
    ensures { result ≡ shuts answer.now }
{
    matches!(answer, Err(DeskFault::Store))
}

impl<S: Alter> Keeper for Desk<S> {
    ghost use Rattle.std.specs.Prelude.{◌≡◌, ◌≢◌, true, false, IfErr, IsErrOf};
    ghost use Rattle.sqlite.specs.Held.{state};
    ghost use Rattle.sqlite.specs.State.{HasCleanDisk, Survives};
    ghost use Rattle.plant_base.specs.{State, newest_schema};
    ghost use Rattle.sqlite.specs.Effect.{Database};
    ghost use Rattle.plant_keeper.specs.{IsSameDesk, Executes, writes_nothing};
    ghost use Rattle.plant_desk_store.specs.Lookups.{IsRepeat};
    ghost use Rattle.plant_desk_store.specs.DeskStates.{Represents, HasCrashStates};
    ghost use Rattle.plant_desk_store.specs.DeskStates.{HasForeignTables};
    ghost use Rattle.plant_desk_store.specs.KeptCrashStates.{never_nothing, kept_crash_states};

    ghost honest = { λ d. HasCleanDisk (state S.Store d.connection) };

    ghost represents = { λ d. Represents (state S.Store d.connection) d.is_shut };

    ghost schema = { λ _. newest_schema };

    ghost shut = { λ d. d.is_shut };

    ghost crash_states = { λ d states. HasCrashStates (state S.Store d.connection) states };

    ghost has_store = { true };

    ghost adds_no_crash_state = { λ a b. Survives (state S.Store a.connection) (state S.Store b.connection) (λ _. ⊥) };

    // The foreign tables, as those of a database.
    ghost ForeignTables = { Database };

    ghost foreign_tables = { λ d before. HasForeignTables (state S.Store d.connection) d.is_shut before };

    // The clauses of every keeper, and that nothing is written for a command that was accepted before.
    fn execute(&mut self, envelope: &Envelope) -> Result<Reply, DeskFault>
        ensures same { IsSameDesk (λ d. HasCleanDisk (state S.Store d.connection)) (λ _. newest_schema)
            (λ d before. HasForeignTables (state S.Store d.connection) d.is_shut before) self.old self.new }
        ensures executes { HasCleanDisk (state S.Store self.new.connection) → self.old.is_shut ≡ false
            → (s : State) → Represents (state S.Store self.old.connection) self.old.is_shut s
            → Executes s (Represents (state S.Store self.new.connection) self.new.is_shut)
            (HasCrashStates (state S.Store self.new.connection)) envelope.now result }
        ensures no_crash_state_added { writes_nothing result ≡ true
            → Survives (state S.Store self.old.connection) (state S.Store self.new.connection) (λ _. ⊥) }
        ensures open { self.old.is_shut ≡ false → self.new.is_shut ≡ shuts result }
        ensures is_live { self.old.is_shut ≡ false → IfErr result (λ fault. fault ≢ DeskFault.Shut) }
        ensures shut { self.old.is_shut ≡ true → IsErrOf result DeskFault.Shut }
        ensures unchanged { self.old.is_shut ≡ true → self.new ≡ self.old }
        ensures repeated { HasCleanDisk (state S.Store self.new.connection) → self.old.is_shut ≡ false
            → (s : State) → Represents (state S.Store self.old.connection) self.old.is_shut s → IsRepeat s envelope.now
            → Survives (state S.Store self.old.connection) (state S.Store self.new.connection) (λ _. ⊥) }
    {
        if self.is_shut {
            return Err(DeskFault::Shut);
        }
        let answer = execute_on(self.alloc, &mut self.connection, envelope, &mut self.digest);
        self.is_shut = is_store_fault(&answer);
        answer
    }

    fn check(&mut self, envelope: &Envelope) -> Result<Checked, DeskFault> {
        if self.is_shut {
            return Err(DeskFault::Shut);
        }
        check_on(self.alloc, &mut self.connection, envelope)
    }

    fn ask(&mut self, question: &Question) -> Result<Answer, DeskFault> {
        if self.is_shut {
            return Err(DeskFault::Shut);
        }
        answer_on(self.alloc, &mut self.connection, question)
    }

    ghost open_crash_state = { λ d s h is_open represented. represented.1 is_open };

    ghost crash_states_nonempty = { λ d left. never_nothing _ left };

    ghost keeps_crash_state = { λ a b s clean adds_no_crash_state left. kept_crash_states _ _ (λ u. u ≡ s) left clean adds_no_crash_state
        (S.Store.survives b.connection.store) };
}
