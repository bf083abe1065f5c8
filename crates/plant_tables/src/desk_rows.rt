ghost use Rattle.std.specs.Prelude.{◌≡◌, IfOk, is_some, option_map};
ghost use Rattle.plant_tables.specs.Loading.{HasOthers, contents_loaded};
ghost use Rattle.plant_tables_columns.specs.{all_from, booked_from, only_meta};
ghost use Rattle.plant_tables.specs.RowLists.{rows_with_movements, rows_listed, rows_from};
ghost use Rattle.plant_tables.specs.ReadingLaws.{RowsRepresentTables, AreReadAgain};
ghost use Rattle.plant_tables.specs.ReadingLaws.{AreWholeRows, AreSameTables, IsBookedAgain};
ghost use Rattle.plant_tables.specs.ReadingLaws.{IsStatedAgain};

use crate::Loaded;
use plant_base::{
    BatchEvent, BatchRow, Class, ControlLine, Definition, EdgeRow, Hold, Job, Lot, Mark,
    MasterLine, Meta, Receipt, Recipe, Sublot,
};
use plant_tables_columns::{BookedRow, Decoded, StatedRecall, decode_all, decode_receipts};
use sqlite::Row;
use std::alloc::{AllocError, Global};

/// The rows of the desk's tables, each table in the order in which it was read: no edges in the first schema, no
/// receipts before the third, and no recalls and marks before the fourth.
#[derive(Drop)]
pub struct DeskRows {
    /// The schema, and the position of the desk.
    pub meta: Meta,
    /// The material classes.
    pub classes: Vec<Class>,
    /// The material definitions.
    pub definitions: Vec<Definition>,
    /// The versions of master recipes, without their lines.
    pub recipes: Vec<Recipe>,
    /// The lines of master recipes.
    pub master_lines: Vec<MasterLine>,
    /// The orders with their states.
    pub jobs: Vec<Job>,
    /// The batches with their progress.
    pub batches: Vec<BatchRow>,
    /// The lines of control recipes.
    pub control_lines: Vec<ControlLine>,
    /// What happened to batches.
    pub events: Vec<BatchEvent>,
    /// The lots.
    pub lots: Vec<Lot>,
    /// The sublots with their stock.
    pub sublots: Vec<Sublot>,
    /// The movements, of which a row may lack what its kind asks for.
    pub movements: Vec<BookedRow>,
    /// The holds of lots.
    pub holds: Vec<Hold>,
    /// The edges of the genealogy.
    pub edges: Vec<EdgeRow>,
    /// The receipts of commands with references.
    pub receipts: Vec<Receipt>,
    /// The recalls, of which a row may lack what its state asks for.
    pub recalls: Vec<StatedRecall>,
    /// The marks of open recalls on lots and batches.
    pub marks: Vec<Mark>,
}

/// The one row of meta. `None` where there isn't one, or a value of it breaks its rule.
#[tactic(auto, unfolding(plant_tables_columns::specs::TableColumns::only_meta))]
pub fn only_meta(rows: &[Row]) -> Option<Meta>
    ensures { result ≡ only_meta rows.now }
{
    match rows {
        [row] => Meta::decode(row),
        _ => None,
    }
}

/// Whether meta has one row, whose values obey their rules: k is 1, the schema at least 1, seq 0 to the greatest, `at` a
/// moment.
pub fn has_meta(loaded: &Loaded) -> bool
    ensures { result ≡ is_some (only_meta (contents_loaded loaded.now 0)) }
{
    only_meta(loaded.rows(0)).is_some()
}

// The rows that were read of a table; where they can't be read, the function returns `None`.
macro_rules! read {
    ($rows:expr) => {
        match $rows {
            Some(rows) => rows,
            None => return Ok(None),
        }
    };
}

/// The rows of the desk that are decoded from the stored rows. `None` exactly where a value breaks its rule, or meta hasn't
/// one row; an error where there is no memory.
#[tactic(auto, using(crate::proofs::ReadOrderIrrelevant::unread, crate::proofs::ReadOrderIrrelevant::with_movements))]
pub fn rows_of(alloc: Global, loaded: &Loaded) -> Result<Option<DeskRows>, AllocError>
    ensures { IfOk result (λ rows. option_map rows_listed rows ≡ rows_from loaded.now) }
{
    let movements = read!(decode_all(alloc, loaded.rows(11))?);
    rows_with_movements(alloc, loaded, movements)
}

/// The same of stored rows that are given up: those of table movement, which are the most, once the movements are read, and the
/// others with them once all is read.
#[tactic(auto, using(crate::proofs::ReadOrderIrrelevant::unread))]
pub fn take_rows(alloc: Global, mut loaded: Loaded) -> Result<Option<DeskRows>, AllocError>
    ensures { IfOk result (λ rows. option_map rows_listed rows ≡ rows_from loaded) }
{
    let movements = read!(take_movements(alloc, &mut loaded)?);
    rows_with_movements(alloc, &loaded, movements)
}

// The movements that are decoded from the stored rows, which are given up.
fn take_movements(alloc: Global, loaded: &mut Loaded) -> Result<Option<Vec<BookedRow>>, AllocError>
    ensures read { IfOk result (λ rows. option_map (λ list. list.items) rows
        ≡ all_from booked_from (contents_loaded loaded.old 11)) }
    ensures others { HasOthers 11 loaded.old loaded.new }
{
    let stored = loaded.take(alloc, 11);
    decode_all(alloc, stored.as_slice())
}

// The rows of the desk that are decoded from the stored rows of the other tables, with these movements.
#[tactic(auto, unfolding(crate::specs::RowLists::rows_with_movements, crate::specs::RowLists::rows_listed))]
fn rows_with_movements(
    alloc: Global,
    loaded: &Loaded,
    movements: Vec<BookedRow>,
) -> Result<Option<DeskRows>, AllocError>
    ensures { IfOk result (λ rows. option_map rows_listed rows
        ≡ rows_with_movements (contents_loaded loaded.now) movements.items) }
{
    Ok(Some(DeskRows {
        meta: read!(only_meta(loaded.rows(0))),
        classes: read!(decode_all(alloc, loaded.rows(1))?),
        definitions: read!(decode_all(alloc, loaded.rows(2))?),
        recipes: read!(decode_all(alloc, loaded.rows(3))?),
        master_lines: read!(decode_all(alloc, loaded.rows(4))?),
        jobs: read!(decode_all(alloc, loaded.rows(5))?),
        batches: read!(decode_all(alloc, loaded.rows(6))?),
        control_lines: read!(decode_all(alloc, loaded.rows(7))?),
        events: read!(decode_all(alloc, loaded.rows(8))?),
        lots: read!(decode_all(alloc, loaded.rows(9))?),
        sublots: read!(decode_all(alloc, loaded.rows(10))?),
        movements,
        holds: read!(decode_all(alloc, loaded.rows(12))?),
        edges: read!(decode_all(alloc, loaded.rows(13))?),
        receipts: read!(decode_receipts(alloc, loaded.rows(14))?),
        recalls: read!(decode_all(alloc, loaded.rows(15))?),
        marks: read!(decode_all(alloc, loaded.rows(16))?),
    }))
}

/// What the reading of rows keeps, as laws that a proof above may cite. It does nothing when it runs.
///
/// - `stand_for`: rows whose lines have numbers, whose movements have the columns of their kinds, whose receipts have
///   contents and whose recalls have the columns of their states are the tables that were loaded.
/// - `read_again`: what a database holds is read as it was written, where the keys of the tables rise and each value
///   obeys its rule.
/// - `whole`: the rows of such tables have numbers, the columns of their kinds and states, and contents.
/// - `tables`: the tables of the rows of tables are those tables.
/// - `booked`: the row that books a movement books that movement.
/// - `stated`: the recall that is decoded from a recall's row is that recall.
pub fn reading_laws()
    ensures stand_for { RowsRepresentTables }
    ensures read_again { AreReadAgain }
    ensures whole { AreWholeRows }
    ensures tables { AreSameTables }
    ensures booked { IsBookedAgain }
    ensures stated { IsStatedAgain }
{}
