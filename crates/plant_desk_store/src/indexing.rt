//! Indexes that the tables of a desk lack.

ghost use Rattle.std.specs.Prelude.{◌≡◌, false};
ghost use Rattle.sqlite.specs.Held.{state};
ghost use Rattle.plant_desk_store.specs.PrivateContracts.{HasMended};

use crate::faults::fault_of;
use plant_questions::DeskFault;
use plant_tables::{commit_missing, read_meta};
use sqlite::{Alter, Connection};
use std::alloc::Global;

/// Makes the indexes that the tables lack whose names are free, in one transaction. Store where the store fails, Memory
/// where there is none.
pub(crate) fn index_on<S: Alter>(
    alloc: Global,
    connection: &mut Connection<S>,
) -> Result<(), DeskFault>
    requires { (state S.Store connection.old).in_transaction ≡ false }
    ensures { HasMended (state S.Store connection.old) (state S.Store connection.new) result }
{
    // A row that was read shows that the connection is open.
    match read_meta(alloc, connection) {
        Ok(_) => {}
        Err(fault) => return Err(fault_of(fault)),
    }
    match commit_missing(alloc, connection) {
        Ok(()) => Ok(()),
        Err(fault) => Err(fault_of(fault)),
    }
}
