//! The work of the arguments, done over the file that they name.
ghost use Rattle.std.specs.Prelude.{◌≡◌, ◌≢◌, false, true, IfErr, ⊤};
ghost use Rattle.sqlite.specs.Steps.{over_memory};
ghost use Rattle.desk_file.specs.{in_memory, IsOutOfMemory};
ghost use Rattle.desk_program.specs.{after_closing};
ghost use Rattle.desk.specs.WorkContracts.{ExitsBy, ExitsOver};

use crate::working::do_work;
use desk_cli::{Task, Words, Work};
use desk_file::{
    ClosableStore, Ended, InMemory, OnDisk, StoreOpener, StoreWork, Worked, is_in_memory, work_over,
};
use desk_program::{Performed, ProgramFault, after_closing, write_opening, write_outcome};
use sqlite::{Alter, Connection, FileFrom, FileStore, Start};
use sqlite_trees::store::Store;
use std::io::Write;

/// The work of the arguments.
#[derive(Clone, Copy)]
struct DeskWork(Work);

impl StoreWork for DeskWork {
    ghost use Rattle.desk.specs.WorkContracts.{WorkGives};

    type WorkOutcome = Result<bool, ProgramFault>;

    ghost gives = { λ work before done after. WorkGives work.0 before done after };

    fn work<S: Alter + Drop>(
        self,
        rt: &HostRuntime,
        connection: Connection<S>,
    ) -> Worked<Result<bool, ProgramFault>, S> {
        let Performed {
            outcome,
            connection,
        } = do_work(rt, self.0, connection);
        Worked {
            outcome,
            connection,
        }
    }
}

/// Does the work of the arguments over the file that they name, and gives the exit status, as [`perform_over`] does.
///
/// `start` represents what the file holds before it is opened, whatever that is; it supposes nothing better of a torn write than [`OnDisk`] allows.
pub(crate) fn perform_at<S: Start>(rt: &HostRuntime, words: &Words<'_>, start: S) -> u8
    requires torn { S.is_mixing ≡ false }
    ensures memory { words.now.file.now ≡ in_memory
        → ExitsBy over_memory (λ opened. IfErr opened IsOutOfMemory) words.now.work (λ _ is_closed. is_closed ≡ true) result }
    ensures file { words.now.file.now ≢ in_memory
        → ExitsBy ⟦<FileStore<FileFrom<S>> as Store>⟧ (λ _. ⊤) words.now.work (λ _ _. ⊤) result }
{
    // That a file is made by another subcommand may come of a slip in its name.
    let is_wanted_new = matches!(words.work, Work::Task(Task::Init));
    let work = DeskWork(words.work);
    if is_in_memory(words.file) {
        let opener = InMemory { alloc: rt.alloc() };
        perform_over(rt, opener, words.file, work, &mut rt.stderr())
    } else {
        let opener = OnDisk::new(rt, is_wanted_new, start);
        perform_over(rt, opener, words.file, work, &mut rt.stderr())
    }
}

/// Opens the store of this name, does the work over it, and closes it. Gives the exit status, and writes the fault's line where there is one.
fn perform_over<
    T: ClosableStore,
    O: StoreOpener<T>,
    W: StoreWork<WorkOutcome = Result<bool, ProgramFault>> + Drop,
    E: Write,
>(rt: &HostRuntime, opener: O, file: &str, work: W, errors: &mut E) -> u8
    ensures { ExitsOver T.Store (O.opens opener file.now) (W.gives work) T.closes
        (E.contents errors.old) (E.contents errors.new) result }
{
    match work_over(rt, opener, file, work) {
        Ok(ended) => write_outcome(outcome_of(ended), errors),
        Err(refused) => write_opening(&refused.error, errors),
    }
}

/// The outcome of the work whose file was closed after it, or couldn't be.
fn outcome_of(ended: Ended<Result<bool, ProgramFault>>) -> Result<bool, ProgramFault>
    ensures { result ≡ after_closing ended.outcome ended.is_closed }
{
    after_closing(ended.outcome, ended.is_closed)
}
