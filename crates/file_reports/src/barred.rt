//! Indexes of the desk that can't be made, since something else bears their name.
ghost use Rattle.std.specs.Prelude.{◌≡◌, map};
ghost use Rattle.sqlite.specs.Change.{is_used};
ghost use Rattle.plant_tables.specs.{desk_indexes};
ghost use Rattle.file_reports.specs.Barred as spec;

use sqlite_schema::schema::Schema;

/// An index of the desk's tables.
#[derive(Clone, Copy, Debug, PartialEq, Eq)]
pub enum DeskIndex {
    BatchEventByBatch,
    MovementByLot,
    MovementByBatch,
    EdgeByEnd,
    MarkByNode,
    DefinitionByClass,
    JobByState,
    BatchByClosed,
    LotByDef,
    RecallByState,
    RecipeByState,
    MovementByLot2,
    JobByDue,
    ReceiptBySeq,
    SublotByStock,
}

impl DeskIndex {
    /// Its name in the file.
    pub fn name(self) -> &'static str
        ensures { result.now ≡ spec.index_name self }
    {
        match self {
            DeskIndex::BatchEventByBatch => "batch_event_by_batch",
            DeskIndex::MovementByLot => "movement_by_lot",
            DeskIndex::MovementByBatch => "movement_by_batch",
            DeskIndex::EdgeByEnd => "edge_by_end",
            DeskIndex::MarkByNode => "mark_by_node",
            DeskIndex::DefinitionByClass => "definition_by_class",
            DeskIndex::JobByState => "job_by_state",
            DeskIndex::BatchByClosed => "batch_by_closed",
            DeskIndex::LotByDef => "lot_by_def",
            DeskIndex::RecallByState => "recall_by_state",
            DeskIndex::RecipeByState => "recipe_by_state",
            DeskIndex::MovementByLot2 => "movement_by_lot2",
            DeskIndex::JobByDue => "job_by_due",
            DeskIndex::ReceiptBySeq => "receipt_by_seq",
            DeskIndex::SublotByStock => "sublot_by_stock",
        }
    }

    /// The schema that adds it.
    fn schema(self) -> u64
        ensures { result ≡ spec.schema_of self }
    {
        match self {
            DeskIndex::BatchEventByBatch
            | DeskIndex::MovementByLot
            | DeskIndex::MovementByBatch
            | DeskIndex::EdgeByEnd => 2,
            DeskIndex::MarkByNode
            | DeskIndex::DefinitionByClass
            | DeskIndex::JobByState
            | DeskIndex::BatchByClosed
            | DeskIndex::LotByDef
            | DeskIndex::RecallByState
            | DeskIndex::RecipeByState
            | DeskIndex::MovementByLot2
            | DeskIndex::JobByDue
            | DeskIndex::ReceiptBySeq
            | DeskIndex::SublotByStock => 4,
        }
    }
}

/// The indexes of the newest schema, in the order in which they are made.
fn all_indexes() -> [DeskIndex; 15]
    ensures all { result ≡ spec.all_indexes }
    ensures named { map spec.index_name result ≡ map (λ i. i.name) desk_indexes }
{
    [
        DeskIndex::BatchEventByBatch,
        DeskIndex::MovementByLot,
        DeskIndex::MovementByBatch,
        DeskIndex::EdgeByEnd,
        DeskIndex::MarkByNode,
        DeskIndex::DefinitionByClass,
        DeskIndex::JobByState,
        DeskIndex::BatchByClosed,
        DeskIndex::LotByDef,
        DeskIndex::RecallByState,
        DeskIndex::RecipeByState,
        DeskIndex::MovementByLot2,
        DeskIndex::JobByDue,
        DeskIndex::ReceiptBySeq,
        DeskIndex::SublotByStock,
    ]
}

/// Whether a table, an index or a view bears the name.
fn is_taken(there: &Schema, name: &[u8]) -> bool
    ensures { result ≡ is_used there.now name.now }
{
    there.table_named(name).is_some()
        || there.index_named(name).is_some()
        || there.view_named(name).is_some()
}

/// Whether the index is one that a later schema than this adds, and something bears its name.
fn is_barred(there: &Schema, schema: u64, index: DeskIndex) -> bool
    ensures { result ≡ spec.is_barred there.now schema index }
{
    schema < index.schema() && is_taken(there, index.name().as_bytes())
}

/// The first of these that is barred.
fn first_barred(there: &Schema, schema: u64, indexes: &[DeskIndex]) -> Option<DeskIndex>
    ensures { result ≡ spec.first_barred there.now schema indexes.now }
{
    for index in indexes {
        if is_barred(there, schema, *index) {
            return Some(*index);
        }
    }
    None
}

/// The first index that can't be made as tables of this schema are migrated, 0 meaning none, since something bears its name.
pub(crate) fn barred_index(there: &Schema, schema: u64) -> Option<DeskIndex>
    ensures { result ≡ spec.barred_index there.now schema }
{
    first_barred(there, schema, &all_indexes())
}
