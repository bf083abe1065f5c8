//! The test of all tables.

ghost use Rattle.std.specs.Prelude.{◌≡◌, IfOk, IfErr};
ghost use Rattle.sqlite.specs.Held.{state};
ghost use Rattle.plant_check_rules.specs.{first_broken};
ghost use Rattle.plant_desk_store.specs.PrivateContracts.{HasTested};

use crate::check_error::{CheckError, check_desk};
use crate::faults::rows_to_test;
use plant_base::NEWEST_SCHEMA;
use plant_check_rules::Rule;
use plant_questions::DeskFault;
use plant_tables::Loaded;
use sqlite::{Alter, Connection};
use std::alloc::Global;

/// The first rule that the tables of a store break. Store where a table isn't declared as its definition says, and where the
/// store fails; Memory where there is none. Nothing is changed.
pub(crate) fn verify_on<S: Alter>(
    alloc: Global,
    connection: &mut Connection<S>,
) -> Result<Option<Rule>, DeskFault>
    ensures { HasTested (state S.Store connection.old) (state S.Store connection.new) result }
{
    let loaded = rows_to_test(Loaded::read(alloc, connection, NEWEST_SCHEMA))?;
    broken_rule(alloc, loaded)
}

// The first rule that loaded rows break. The only error is that memory was refused.
fn broken_rule(alloc: Global, loaded: Loaded) -> Result<Option<Rule>, DeskFault>
    ensures broken { IfOk result (λ broken. broken ≡ first_broken loaded) }
    ensures memory { IfErr result (λ fault. fault ≡ DeskFault.Memory) }
{
    match check_desk(alloc, loaded, NEWEST_SCHEMA) {
        Ok(_) => Ok(None),
        Err(CheckError::Broken(rule)) => Ok(Some(rule)),
        Err(CheckError::Schema) => Ok(None),
        Err(CheckError::Memory) => Err(DeskFault::Memory),
    }
}
