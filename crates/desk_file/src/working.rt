//! Work over an opened store, and the end of it.
ghost use Rattle.std.specs.Prelude.{◌≡◌, false, Err, IfOk, IfErr};
ghost use Rattle.sqlite.specs.Held.{state};
ghost use Rattle.sqlite.specs.State.{HasCleanDisk};
ghost use Rattle.desk_file.specs.Working.{WasDone, WasWorkedOver};

use crate::opening::{ClosableStore, StoreOpener};
use sqlite::{Alter, Connection, Error};

/// Work over an opened store, whichever it is.
///
/// It is a trait so that no function that reports what is done has to be proved over the store of a file, which is dear: each is proved
/// once, over all stores.
///
/// Work need not be `Copy`: what takes it by value can do it once at most.
pub trait StoreWork {
    ghost use Rattle.std.specs.Prelude.{◌≡◌, false};
    ghost use Rattle.sqlite.specs.Held.{state};
    ghost use Rattle.sqlite.specs.State.{State, HasCleanDisk};

    /// What it gives back beside the store.
    type WorkOutcome: Copy;

    /// The outcome of the work over a store that showed the first state, and was given back in the second.
    ghost gives: { Self → State → Self.WorkOutcome → State → Type 0 };

    /// Does it over a store in no transaction, and gives the store back.
    fn work<S: Alter + Drop>(
        self,
        rt: &HostRuntime,
        connection: Connection<S>,
    ) -> Worked<Self::WorkOutcome, S>
        requires { (state S.Store connection).in_transaction ≡ false }
        ensures honest { HasCleanDisk (state S.Store result.connection) → HasCleanDisk (state S.Store connection) }
        ensures given { gives self (state S.Store connection) result.outcome (state S.Store result.connection) };
}

/// The outcome of work, and the store that it was done over.
#[derive(Drop)]
pub struct Worked<T: Copy, S: Alter> {
    /// What the work gave back.
    pub outcome: T,
    /// The store, still open.
    pub connection: Connection<S>,
}

/// The outcome of work whose store was closed after it, or couldn't be.
#[derive(Clone, Copy)]
pub struct Ended<T: Copy> {
    /// What the work gave back.
    pub outcome: T,
    /// Whether the store could be closed. One in memory always can.
    pub is_closed: bool,
}

/// Work that wasn't done, because its store didn't open.
#[derive(Drop)]
pub struct OpenRefused<W> {
    /// Why the store didn't open.
    pub error: Error,
    /// The work, which the caller may do otherwise or drop.
    pub work: W,
}

/// Opens the store of this name, does the work over it, and closes it, each once at most, since an opener, work and a store are taken by value.
/// The error is that of a store that didn't open, and gives the work back: it wasn't done.
pub fn work_over<T: ClosableStore, O: StoreOpener<T>, W: StoreWork>(
    rt: &HostRuntime,
    opener: O,
    file: &str,
    work: W,
) -> Result<Ended<W::WorkOutcome>, OpenRefused<W>>
    ensures done { IfOk result (λ ended. WasDone T.Store (O.opens opener file.now) (W.gives work)
        T.closes ended.outcome ended.is_closed) }
    ensures unopened { IfErr result (λ refused. O.opens opener file.now (Err refused.error)) }
    ensures undone { IfErr result (λ refused. refused.work ≡ work) }
{
    match opener.open(file) {
        Ok(connection) => Ok(work_and_close(rt, connection, work)),
        Err(error) => Err(OpenRefused { error, work }),
    }
}

/// Does the work over an open store, and closes it.
fn work_and_close<T: ClosableStore, W: StoreWork>(
    rt: &HostRuntime,
    connection: Connection<T>,
    work: W,
) -> Ended<W::WorkOutcome>
    requires { (state T.Store connection).in_transaction ≡ false }
    ensures { WasWorkedOver T.Store connection (W.gives work) T.closes result.outcome result.is_closed }
{
    let Worked {
        outcome,
        connection,
    } = work.work(rt, connection);
    Ended {
        outcome,
        is_closed: connection.into_store().close_store(),
    }
}
