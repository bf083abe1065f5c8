//! Whether loaded rows are those of a desk.

ghost use Rattle.std.specs.Prelude.{IfOk, IfErr};
ghost use Rattle.plant_desk_store.specs.Checks.{PassesChecks, FailsChecksBy, PassesChecksOf};
ghost use Rattle.plant_desk_store.specs.Checks.{FailsChecksOf};

use plant_check::check_rows;
use plant_check_rules::Rule;
use plant_tables::{DeskRows, Loaded, has_meta, take_rows};
use std::alloc::Global;

/// Why loaded rows aren't those of a desk of a schema.
#[derive(Clone, Copy)]
pub(crate) enum CheckError {
    /// They break this rule, and none before it.
    Broken(Rule),
    /// They break no rule and are of another schema.
    Schema,
    /// There was no memory to decide it.
    Memory,
}

/// The rows of a desk of a schema that loaded rows are: their values are judged and their rules checked. The
/// adoption of a store and its test call this, and nothing else judges what a store holds. What was loaded is given up as
/// its values are judged, so that no table is held twice while rules are checked.
pub(crate) fn check_desk(alloc: Global, loaded: Loaded, schema: u64) -> Result<DeskRows, CheckError>
    ensures fit { IfOk result (PassesChecks loaded schema) }
    ensures check_error { IfErr result (FailsChecksBy loaded schema) }
{
    if !has_meta(&loaded) {
        return Err(CheckError::Broken(Rule::Tables));
    }
    match take_rows(alloc, loaded) {
        Err(_) => Err(CheckError::Memory),
        Ok(None) => Err(CheckError::Broken(Rule::Values)),
        Ok(Some(rows)) => check_all(alloc, rows, schema),
    }
}

// The rows where they break no rule and are of this schema.
fn check_all(alloc: Global, rows: DeskRows, schema: u64) -> Result<DeskRows, CheckError>
    ensures fit { IfOk result (PassesChecksOf rows schema) }
    ensures check_error { IfErr result (FailsChecksOf rows schema) }
{
    match check_rows(alloc, &rows) {
        Err(_) => Err(CheckError::Memory),
        Ok(Some(rule)) => Err(CheckError::Broken(rule)),
        Ok(None) => {
            if rows.meta.schema != schema {
                return Err(CheckError::Schema);
            }
            Ok(rows)
        }
    }
}
