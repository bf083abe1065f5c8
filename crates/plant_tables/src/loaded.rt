ghost use Rattle.std.specs.Prelude.{◌≡◌, ◌↔◌, ◌++◌, ◌∷◌, [], true, None, IfOk, IfErr, IfSome, OnOk};
ghost use Rattle.std.specs.Prelude.{IsOkUnless};
ghost use Rattle.sqlite.specs.Held.{state};
ghost use Rattle.sqlite.specs.State.{HasCleanDisk, Survives};
ghost use Rattle.sql_queries.specs.{AnswersUnchanged, BeginsNone, FindsUnchanged, KeepsVisible};
ghost use Rattle.plant_tables.specs.Loading.{AreLoaded, AreRising, HasOthers, contents_loaded};
ghost use Rattle.plant_tables.specs.Version.{IsKnown, HasTablesOf};
ghost use Rattle.plant_tables.specs.LoadingContracts.{FindsLoaded, FindsStored, ReportsLacking};

use crate::readings::readings_of;
use crate::select_texts::desk_readings;
use crate::table_defs::{desk_table_defs, tables_in};
use plant_base::NEWEST_SCHEMA;
use sql_queries::{all_free, are_all_declared, read_table};
use sql_tables::StoreFault;
use sqlite::{Alter, Connection, Row};
use sqlite_schema::schema::Schema;
use std::alloc::Global;
use std::mem::replace;

/// Every row of the desk's tables as it is stored: the rows of each table by its key, the tables in the order of their
/// definitions. Values that break a rule are kept as they are.
#[derive(Drop)]
pub struct Loaded {
    /// The rows of each table, as many tables as the schema has.
    pub tables: Vec<Vec<Row>>,
}

/// Puts the rows of a table after those of the others. Memory where there is none for the list to grow.
fn keep(tables: &mut Vec<Vec<Row>>, rows: Vec<Row>) -> Result<(), StoreFault>
    ensures fault { IsOkUnless result StoreFault.Memory }
    ensures kept { OnOk result (tables.new.items ≡ tables.old.items ++ rows ∷ []) }
{
    match tables.push(rows) {
        Ok(()) => Ok(()),
        Err(_) => Err(StoreFault::Memory),
    }
}

impl Loaded {
    /// The rows of the table of this index, the first being 0; none where there is no such table.
    pub fn rows(&self, place: usize) -> &[Row]
        ensures { result.now ≡ contents_loaded self.now place }
    {
        match self.tables.get(place) {
            Some(rows) => rows.as_slice(),
            None => &[],
        }
    }

    /// Takes the rows of the table of this index, the first being 0, out of those that were loaded: none where there is no such
    /// table. Afterwards the table is empty, and the others are as they were.
    #[tactic(auto, using(crate::proofs::ReadOrderIrrelevant::table_kept))]
    pub(crate) fn take(&mut self, alloc: Global, place: usize) -> Vec<Row>
        ensures rows { result.items ≡ contents_loaded self.old place }
        ensures others { HasOthers place self.old self.new }
    {
        match self.tables.get_mut(place) {
            Some(rows) => replace(rows, Vec::new(alloc)),
            None => Vec::new(alloc),
        }
    }

    /// Reads every row of the tables of a schema, one query a table. `None` where one of them isn't declared as its
    /// definition says, or the name of one that a later schema adds isn't free. Store where the schema isn't known, where a
    /// transaction is open, and where the store fails; Memory where there is none. Nothing is changed.
    pub fn read<S: Alter>(
        alloc: Global,
        conn: &mut Connection<S>,
        schema: u64,
    ) -> Result<Option<Loaded>, StoreFault>
        ensures rows { FindsLoaded schema (state S.Store conn.old) (state S.Store conn.new) result }
        ensures ordered { IfOk result (λ found. IfSome found (AreRising schema)) }
        ensures has_rows { FindsStored schema (state S.Store conn.old) (state S.Store conn.new)
            result }
        ensures missing { IfOk result (λ found. found ≡ None
            → ¬ HasTablesOf schema (state S.Store conn.old).now.schema) }
        ensures whole { IfOk result (λ found. IfSome found
            (λ _. HasTablesOf schema (state S.Store conn.old).now.schema)) }
        ensures lacking { ReportsLacking schema (state S.Store conn.old) result }
        ensures same { FindsUnchanged (state S.Store conn.old) (state S.Store conn.new) result }
        ensures kept { KeepsVisible (state S.Store conn.old) (state S.Store conn.new) }
        ensures mode { BeginsNone (state S.Store conn.old) (state S.Store conn.new) }
        ensures crash { Survives (state S.Store conn.old) (state S.Store conn.new) (λ _. ⊥) }
        // Memory is wanted for the rows of a schema that is known, all tables of which exist.
        ensures known { IfErr result (λ fault. fault ≡ StoreFault.Memory → IsKnown schema) }
        ensures memory { IfErr result (λ fault. fault ≡ StoreFault.Memory
            → HasTablesOf schema (state S.Store conn.old).now.schema) }
    {
        if schema < 1 || schema > NEWEST_SCHEMA {
            return Err(StoreFault::Store);
        }
        if !has_tables(conn.schema(), schema) {
            return Ok(None);
        }
        Ok(Some(Loaded::read_all(alloc, conn, schema)?))
    }

    fn read_all<S: Alter>(
        alloc: Global,
        conn: &mut Connection<S>,
        schema: u64,
    ) -> Result<Loaded, StoreFault>
        ensures rows { HasCleanDisk (state S.Store conn.new)
            → IfOk result (AreLoaded schema (state S.Store conn.old).now) }
        ensures rising { IfOk result (AreRising schema) }
        ensures same { AnswersUnchanged (state S.Store conn.old) (state S.Store conn.new) result }
        ensures kept { KeepsVisible (state S.Store conn.old) (state S.Store conn.new) }
        ensures mode { BeginsNone (state S.Store conn.old) (state S.Store conn.new) }
        ensures crash { Survives (state S.Store conn.old) (state S.Store conn.new) (λ _. ⊥) }
    {
        let readings = desk_readings();
        let mut tables = Vec::new(alloc);
        for reading in readings_of(&readings, schema) {
            let rows = read_table(alloc, conn, &reading.table_def, reading.select)?;
            keep(&mut tables, rows)?;
        }
        Ok(Loaded { tables })
    }
}

/// Whether the tables of a schema are declared as their definitions say, and no table that a later one adds exists.
fn has_tables(there: &Schema, schema: u64) -> bool
    ensures { (result ≡ true) ↔ HasTablesOf schema there.now }
{
    let table_defs = desk_table_defs();
    let (own, later) = table_defs.split_at(tables_in(schema));
    are_all_declared(there, own) && all_free(there, later)
}
