ghost use Rattle.std.specs.Prelude.{◌≡◌, ◌≤◌, ℕ, true, false, map, IfOk, OnOk, IsOkUnless};
ghost use Rattle.std.specs.List.{list_any};
ghost use Rattle.sqlite.specs.Effect.{IsDatabase};
ghost use Rattle.sqlite.specs.State.{HasCleanDisk, Survives, KeepsCommit};
ghost use Rattle.sqlite.specs.Held.{state};
ghost use Rattle.sql_tables.specs.{Founds, AddsIndexes, AreFree, IsUpsertStatement};
ghost use Rattle.sql_tables.specs.Moves.{Moves};
ghost use Rattle.plant_tables.specs.DeskTableDefs.{table_defs_of, sublot_table};
ghost use Rattle.plant_tables.specs.DeskIndexes.{indexes_of, HasIndexes};
ghost use Rattle.plant_tables.specs.DeskTables.{rows_changed, all_rows_changed};
ghost use Rattle.plant_tables.specs.Keyed.{MovesTablesOf, AreOfSchema};
ghost use Rattle.plant_tables.specs.KeyedRows.{IsOfSchema};
ghost use Rattle.plant_tables.specs.PutStatements.{OnlyAdds};
ghost use Rattle.plant_tables.specs.Keyed.{adds_lot};
ghost use Rattle.plant_base.specs.{newest_schema};

use crate::table_defs;
use plant_base::Sublot;
use plant_tables_columns::storing::{id, large};
use plant_tables_columns::{
    batch_values, class_values, control_line_values, definition_values, edge_values, event_values,
    hold_values, job_values, lot_values, mark_values, master_line_values, meta_values,
    movement_values, recall_values, receipt_values, recipe_values, sublot_values,
};
use plant_view::{RowChange, RowParts};
use sql_tables::{StoreFault, create_tables, delete_rows, put_row, run_create_indexes};
use sqlite::{Alter, Transaction};

/// Makes one change inside the transaction, by one statement, in tables of whatever schema has the change's table. The
/// one fault is [`StoreFault::Store`], where the store refuses it, or where a number is above 2^63 - 1.
pub fn write_change<S: Alter>(
    tx: &mut Transaction<'_, S>,
    change: &RowChange,
) -> Result<(), StoreFault>
    ensures fault { IsOkUnless result StoreFault.Store }
    ensures same_reference { tx.new.conn.ghost_name ≡ tx.old.conn.ghost_name }
    ensures moved { HasCleanDisk (state S.Store tx.new.conn.now)
        → (schema : ℕ) → IsOfSchema schema change.now
        → OnOk result (Moves (table_defs_of schema) (state S.Store tx.old.conn.now)
        (state S.Store tx.new.conn.now) (rows_changed change.now)) }
    ensures kept { HasCleanDisk (state S.Store tx.new.conn.now)
        → KeepsCommit (state S.Store tx.old.conn.now) (state S.Store tx.new.conn.now) }
    ensures survives { Survives (state S.Store tx.old.conn.now) (state S.Store tx.new.conn.now) (λ _. ⊥) }
{
    let _: Option<RowParts> = None;
    match change {
        RowChange::Meta(row) => {
            let schema = large(row.schema)?;
            let seq = large(row.position.seq)?;
            put_row(tx, table_defs::PUT_META, &meta_values(row, schema, seq))
        }
        RowChange::Class(row) => put_row(tx, table_defs::PUT_CLASS, &class_values(row)),
        RowChange::Definition(row) => put_row(
            tx,
            table_defs::PUT_DEFINITION,
            &definition_values(row),
        ),
        RowChange::Recipe(row) => put_row(tx, table_defs::PUT_RECIPE, &recipe_values(row)),
        RowChange::MasterLine(row) => {
            put_row(tx, table_defs::PUT_RECIPE_LINE, &master_line_values(row))
        }
        RowChange::Job(row) => put_row(tx, table_defs::PUT_JOB, &job_values(row)),
        RowChange::Batch(row) => put_row(tx, table_defs::PUT_BATCH, &batch_values(row)),
        RowChange::ControlLine(row) => {
            put_row(tx, table_defs::PUT_CONTROL_LINE, &control_line_values(row))
        }
        RowChange::Event(row) => {
            let seq = large(row.seq)?;
            put_row(tx, table_defs::PUT_BATCH_EVENT, &event_values(row, seq))
        }
        RowChange::Lot(row) => put_row(tx, table_defs::PUT_LOT, &lot_values(row)),
        RowChange::Sublot(row) => {
            let stock = large(row.stock)?;
            put_row(tx, table_defs::PUT_SUBLOT, &sublot_values(row, stock))
        }
        RowChange::Movement(row) => {
            let seq = large(row.seq)?;
            put_row(tx, table_defs::PUT_MOVEMENT, &movement_values(row, seq))
        }
        RowChange::Hold(row) => put_row(tx, table_defs::PUT_HOLD, &hold_values(row)),
        RowChange::Edge(row) => put_row(tx, table_defs::PUT_EDGE, &edge_values(row)),
        RowChange::Receipt(row) => {
            let seq = large(row.seq)?;
            put_row(tx, table_defs::PUT_RECEIPT, &receipt_values(row, seq))
        }
        RowChange::Recall(row) => put_row(tx, table_defs::PUT_RECALL, &recall_values(row)),
        RowChange::Mark(row) => put_row(tx, table_defs::PUT_MARK, &mark_values(row)),
        RowChange::Unhold { lot, hold } => {
            delete_rows(tx, table_defs::DELETE_HOLD, &[id(lot), id(hold)])
        }
        RowChange::Unmark { recall } => delete_rows(tx, table_defs::DELETE_MARKS, &[id(recall)]),
    }
}

/// Whether the change adds the lot of this sublot.
fn adds_lot(change: &RowChange, row: &Sublot) -> bool
    ensures { result ≡ adds_lot row.now.lot change.now }
{
    let _: Option<RowParts> = None;
    match change {
        RowChange::Lot(lot) => lot.id == row.lot,
        _ => false,
    }
}

/// Whether some change adds the lot of this sublot.
fn add_lot_of(changes: &[RowChange], row: &Sublot) -> bool
    ensures { result ≡ list_any (adds_lot row.now.lot) changes.now }
{
    changes.iter().any(|change| adds_lot(change, row))
}

/// The text that puts a sublot among changes: one that only adds where they add its lot, since a new lot has no sublots.
fn sublot_text(row: &Sublot, changes: &[RowChange]) -> &'static str
    ensures added { list_any (adds_lot row.now.lot) changes.now ≡ true
        → OnlyAdds result.now sublot_table }
    ensures updated { list_any (adds_lot row.now.lot) changes.now ≡ false
        → IsUpsertStatement result.now sublot_table }
{
    if add_lot_of(changes, row) {
        table_defs::ADD_SUBLOT
    } else {
        table_defs::PUT_SUBLOT
    }
}

/// Makes one of some changes inside the transaction, as [`write_change`] does.
fn write_among<S: Alter>(
    tx: &mut Transaction<'_, S>,
    change: &RowChange,
    changes: &[RowChange],
) -> Result<(), StoreFault>
    ensures fault { IsOkUnless result StoreFault.Store }
    ensures same_reference { tx.new.conn.ghost_name ≡ tx.old.conn.ghost_name }
    ensures moved { HasCleanDisk (state S.Store tx.new.conn.now)
        → (schema : ℕ) → IsOfSchema schema change.now
        → OnOk result (Moves (table_defs_of schema) (state S.Store tx.old.conn.now)
        (state S.Store tx.new.conn.now) (rows_changed change.now)) }
    ensures kept { HasCleanDisk (state S.Store tx.new.conn.now)
        → KeepsCommit (state S.Store tx.old.conn.now) (state S.Store tx.new.conn.now) }
    ensures survives { Survives (state S.Store tx.old.conn.now) (state S.Store tx.new.conn.now) (λ _. ⊥) }
{
    let _: Option<RowParts> = None;
    match change {
        RowChange::Sublot(row) => {
            let stock = large(row.stock)?;
            put_row(tx, sublot_text(row, changes), &sublot_values(row, stock))
        }
        _ => write_change(tx, change),
    }
}

/// Makes the changes in turn inside the transaction, up to the first that the store refuses. The fault is that of
/// [`write_change`].
pub fn write_changes<S: Alter>(
    tx: &mut Transaction<'_, S>,
    changes: &[RowChange],
) -> Result<(), StoreFault>
    ensures fault { IsOkUnless result StoreFault.Store }
    ensures same_reference { tx.new.conn.ghost_name ≡ tx.old.conn.ghost_name }
    ensures moved { HasCleanDisk (state S.Store tx.new.conn.now)
        → (schema : ℕ) → AreOfSchema schema changes.now
        → OnOk result (Moves (table_defs_of schema) (state S.Store tx.old.conn.now)
        (state S.Store tx.new.conn.now) (all_rows_changed changes.now)) }
    ensures tables { HasCleanDisk (state S.Store tx.new.conn.now)
        → (schema : ℕ) → AreOfSchema schema changes.now
        → OnOk result (MovesTablesOf schema changes.now (state S.Store tx.old.conn.now).now
        (state S.Store tx.new.conn.now).now) }
    ensures kept { HasCleanDisk (state S.Store tx.new.conn.now)
        → KeepsCommit (state S.Store tx.old.conn.now) (state S.Store tx.new.conn.now) }
    ensures survives { Survives (state S.Store tx.old.conn.now) (state S.Store tx.new.conn.now) (λ _. ⊥) }
{
    for change in changes {
        write_among(tx, change, changes)?;
    }
    Ok(())
}

/// Makes the indexes of a schema, which serve lookups, of tables that exist and keep their rows. The one fault is
/// [`StoreFault::Store`], where the store refuses one, as where its name is taken.
pub(crate) fn create_indexes<S: Alter>(
    tx: &mut Transaction<'_, S>,
    schema: u64,
) -> Result<(), StoreFault>
    ensures fault { IsOkUnless result StoreFault.Store }
    ensures same_reference { tx.new.conn.ghost_name ≡ tx.old.conn.ghost_name }
    ensures indexed { HasCleanDisk (state S.Store tx.new.conn.now)
        → OnOk result (AddsIndexes (table_defs_of schema) (indexes_of schema) (state S.Store tx.old.conn.now)
        (state S.Store tx.new.conn.now)) }
    ensures kept { HasCleanDisk (state S.Store tx.new.conn.now)
        → KeepsCommit (state S.Store tx.old.conn.now) (state S.Store tx.new.conn.now) }
    ensures survives { Survives (state S.Store tx.old.conn.now) (state S.Store tx.new.conn.now) (λ _. ⊥) }
{
    let (own, _) = table_defs::DESK_INDEXES.split_at(table_defs::indexes_in(schema));
    run_create_indexes(tx, own)
}

/// Makes the tables of a schema, with its indexes, and leaves the tables empty. The one fault is [`StoreFault::Store`],
/// where the store refuses one, as where its name is taken.
pub fn create<S: Alter>(tx: &mut Transaction<'_, S>, schema: u64) -> Result<(), StoreFault>
    requires numbered { 1 ≤ schema }
    requires known { schema ≤ newest_schema }
    ensures fault { IsOkUnless result StoreFault.Store }
    ensures same_reference { tx.new.conn.ghost_name ≡ tx.old.conn.ghost_name }
    ensures founded { HasCleanDisk (state S.Store tx.new.conn.now)
        → OnOk result (Founds (table_defs_of schema) (state S.Store tx.old.conn.now)
        (state S.Store tx.new.conn.now)) }
    ensures indexed { HasCleanDisk (state S.Store tx.new.conn.now)
        → IsDatabase (state S.Store tx.old.conn.now).now
        → AreFree (table_defs_of schema) (state S.Store tx.old.conn.now).now.schema
        → OnOk result (HasIndexes (indexes_of schema) (state S.Store tx.new.conn.now).now.schema) }
    ensures kept { HasCleanDisk (state S.Store tx.new.conn.now)
        → KeepsCommit (state S.Store tx.old.conn.now) (state S.Store tx.new.conn.now) }
    ensures survives { Survives (state S.Store tx.old.conn.now) (state S.Store tx.new.conn.now) (λ _. ⊥) }
{
    let (own, _) = table_defs::CREATE_TABLES.split_at(table_defs::tables_in(schema));
    create_tables(tx, own)?;
    create_indexes(tx, schema)
}
