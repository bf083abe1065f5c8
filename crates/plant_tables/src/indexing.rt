//! The making of indexes that a desk's tables lack.

ghost use Rattle.std.specs.Prelude.{◌≡◌, false, map, IfOk};
ghost use Rattle.std.specs.List.{filter_map};
ghost use Rattle.sqlite.specs.Held.{state};
ghost use Rattle.sql_tables.specs.{AreCreateIndexStatements};
ghost use Rattle.plant_tables.specs.DeskIndexes.{desk_indexes};
ghost use Rattle.plant_tables.specs.Missing.{missing_in, CreateLacking, CreatesIndexes};
ghost use Rattle.plant_tables.specs.Missing.{HasCreatedIndexes};

use crate::table_defs;
use sql_tables::{
    CreateIndexStatement, StoreFault, TransactionWork, in_one, is_taken, run_create_indexes,
};
use sqlite::{Alter, Connection, Transaction};
use sqlite_schema::schema::Schema;
use std::alloc::{AllocError, Global};

/// The index, where its name is free.
fn missing_in(
    schema: &Schema,
    index: &CreateIndexStatement<'static>,
) -> Option<CreateIndexStatement<'static>>
    ensures { result ≡ missing_in schema.now index.now }
{
    if is_taken(schema, index.name) {
        None
    } else {
        Some(*index)
    }
}

/// Those of some indexes whose names are free. The only error is that memory was refused.
fn missing_among(
    alloc: Global,
    schema: &Schema,
    indexes: &[CreateIndexStatement<'static>],
) -> Result<Vec<CreateIndexStatement<'static>>, AllocError>
    ensures { IfOk result (λ missing. missing.items ≡ filter_map (missing_in schema.now) indexes.now) }
{
    indexes
        .iter()
        .filter_map(|index| missing_in(schema, index))
        .collect(alloc)
}

/// The indexes of the newest schema whose names are free. The only error is that memory was refused.
fn all_missing(
    alloc: Global,
    schema: &Schema,
) -> Result<Vec<CreateIndexStatement<'static>>, AllocError>
    ensures { IfOk result (λ missing. CreateLacking schema.now missing.items) }
{
    missing_among(alloc, schema, all_indexes())
}

/// The indexes of the newest schema.
fn all_indexes() -> &'static [CreateIndexStatement<'static>]
    ensures named { map (λ text. text.name.now) result.now ≡ map (λ index. index.name) desk_indexes }
    ensures made { AreCreateIndexStatements (map (λ text. text.sql.now) result.now) desk_indexes }
{
    &table_defs::DESK_INDEXES
}

/// The making of some indexes.
#[derive(Clone, Copy)]
struct Indexing<'a> {
    texts: &'a [CreateIndexStatement<'a>],
}

impl<'a> TransactionWork for Indexing<'a> {
    ghost makes = { λ w. CreatesIndexes (map (λ text. text.sql.now) w.texts.now) };

    fn run<S: Alter>(&self, tx: &mut Transaction<'_, S>) -> Result<(), StoreFault> {
        run_create_indexes(tx, self.texts)
    }
}

/// Makes the indexes of the newest schema that tables of it lack, in one transaction, whose commit is the last call of the
/// store: those whose names are free. The tables keep their rows, and where all names are taken nothing is written.
/// Store where the store refuses one, and then nothing is changed, but a commit that failed may be found made after a
/// stop; Memory where there is none, and then nothing was written.
pub fn commit_missing<S: Alter>(alloc: Global, conn: &mut Connection<S>) -> Result<(), StoreFault>
    requires { conn.old.in_transaction ≡ false }
    ensures gained { HasCreatedIndexes (state S.Store conn.old) (state S.Store conn.new) result }
    ensures mode { conn.new.in_transaction ≡ false }
{
    match all_missing(alloc, conn.schema()) {
        Ok(missing) => commit_these(conn, missing.as_slice()),
        Err(_) => Err(StoreFault::Memory),
    }
}

/// Makes these indexes, which are those that the tables lack, in one transaction. The one fault is [`StoreFault::Store`].
fn commit_these<S: Alter>(
    conn: &mut Connection<S>,
    missing: &[CreateIndexStatement<'static>],
) -> Result<(), StoreFault>
    requires rest { conn.old.in_transaction ≡ false }
    requires lacked { CreateLacking (state S.Store conn.old).now.schema missing.now }
    ensures gained { HasCreatedIndexes (state S.Store conn.old) (state S.Store conn.new) result }
    ensures mode { conn.new.in_transaction ≡ false }
{
    if missing.is_empty() {
        return Ok(());
    }
    in_one(conn, &Indexing { texts: missing })
}
