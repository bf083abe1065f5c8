//! The adoption of the program's store, and a store at which a subcommand stopped.
ghost use Rattle.std.specs.Prelude.{◌≡◌, ◌≢◌, false, Err, IfOk, IfErr, MatchResult};
ghost use Rattle.sqlite.specs.Held.{state};
ghost use Rattle.sqlite.specs.State.{HasCleanDisk};
ghost use Rattle.sqlite.specs.Effect.{Database};
ghost use Rattle.plant_desk_store.specs.{HasForeignTables, IsDurablyAt, Represents};
ghost use Rattle.plant_base.specs.{State};
ghost use Rattle.desk_program.specs.Faults.{adopt_fault};
ghost use Rattle.desk_program.specs.Runs.{AdoptedIfHonest, IsRefused, WasHonest};

use crate::fault::ProgramFault;
use plant_desk_store::{AdoptRefused, Desk};
use sqlite::{Alter, Connection};
use std::alloc::Global;

/// The fault that ended a subcommand, and the store, which the caller has to close.
#[derive(Drop)]
pub struct TaskError<S: Alter> {
    /// Why the subcommand isn't done.
    pub fault: ProgramFault,
    /// The store.
    pub connection: Connection<S>,
}

/// The outcome of a task over a store.
#[derive(Drop)]
pub struct Performed<S: Alter> {
    /// Whether something was refused, or the fault.
    pub outcome: Result<bool, ProgramFault>,
    /// The store, which the caller has to close.
    pub connection: Connection<S>,
}

/// The outcome of a task that stopped at a fault.
pub fn performed_of<S: Alter + Drop>(stopped: TaskError<S>) -> Performed<S>
    ensures outcome { result.outcome ≡ Err stopped.fault }
    ensures store { result.connection ≡ stopped.connection }
{
    Performed {
        outcome: Err(stopped.fault),
        connection: stopped.connection,
    }
}

/// The error for a store that wasn't adopted.
fn task_error<S: Alter + Drop>(refused: AdoptRefused<S>) -> TaskError<S>
    ensures fault { result.fault ≡ adopt_fault refused.fault }
    ensures store { result.connection ≡ refused.connection }
{
    TaskError {
        fault: ProgramFault::from(refused.fault),
        connection: refused.connection,
    }
}

/// The desk, with the indexes that its tables lacked, where they can be made: they are there for speed alone, so that it
/// represents what it represented without them, too, and the foreign tables are as they were.
fn with_indexes<S: Alter>(mut desk: Desk<S>) -> Desk<S>
    requires { desk.is_shut ≡ false }
    ensures honest { HasCleanDisk (state S.Store result.connection)
        → HasCleanDisk (state S.Store desk.connection) }
    ensures represents { HasCleanDisk (state S.Store result.connection) → (s : State)
        → Represents (state S.Store desk.connection) false s
        → Represents (state S.Store result.connection) false s }
    ensures others { HasCleanDisk (state S.Store result.connection) → (before : Database)
        → HasForeignTables (state S.Store desk.connection) false before
        → HasForeignTables (state S.Store result.connection) false before }
    ensures open { result.is_shut ≡ false }
{
    let _added = desk.add_indexes();
    desk
}

/// Adopts a store, as [`Desk::adopt`] does, and makes the indexes that its tables lack, as [`Desk::add_indexes`] does. Foreign
/// tables are as they were.
/// Where the store isn't adopted, `TaskError` has the fault and gives the connection back; the fault is never `Write`.
pub fn adopt<S: Alter + Drop>(
    alloc: Global,
    connection: Connection<S>,
) -> Result<Desk<S>, TaskError<S>>
    requires { (state S.Store connection).in_transaction ≡ false }
    ensures adopted { IfOk result (λ desk. AdoptedIfHonest (state S.Store connection)
        (state S.Store desk.connection) (IsDurablyAt (state S.Store desk.connection))) }
    ensures honest { MatchResult result
        (λ desk. WasHonest (state S.Store connection) (state S.Store desk.connection))
        (λ stopped. WasHonest (state S.Store connection) (state S.Store stopped.connection)) }
    ensures open { IfOk result (λ desk. desk.is_shut ≡ false) }
    ensures refused { IfErr result (λ stopped. IsRefused (state S.Store connection)
        (state S.Store stopped.connection) stopped.fault) }
    ensures write_error { IfErr result (λ stopped. stopped.fault ≢ ProgramFault.Write) }
{
    match Desk::adopt(alloc, connection) {
        Ok(desk) => Ok(with_indexes(desk)),
        Err(refused) => Err(task_error(refused)),
    }
}
