//! A row that breaks a rule.
ghost use Rattle.std.specs.Prelude.{◌≡◌};
ghost use Rattle.plant_requirements.specs.Naming.{column_name};

use crate::table_names::Table;
use crate::value_rule::ValueRule;
use plant_base::{Amount, BatchState, Id, JobState, Refusal, Text};
use plant_tables_columns::MovementKindCode;

/// A column of the desk's tables.
#[derive(Clone, Copy, Debug, PartialEq, Eq)]
pub enum Column {
    A,
    Amount,
    At,
    Attempt,
    B,
    Base,
    Batch,
    ByWho,
    Class,
    Closed,
    Content,
    Def,
    Due,
    High,
    Id,
    Job,
    Kind,
    LiftAt,
    LiftBy,
    LiftNote,
    Line,
    Lot,
    Lot2,
    Low,
    Name,
    Next,
    No,
    Note,
    Phase,
    Place,
    Priority,
    Product,
    Qty,
    Recall,
    Recipe,
    Seq,
    Size,
    State,
    Stock,
    Sub,
    Sub2,
    T1,
    T2,
    T3,
    Title,
    Unit,
    Version,
    Word,
}

impl Column {
    /// Its name in the file.
    pub fn name(self) -> &'static str
        ensures { result.now ≡ column_name self }
    {
        match self {
            Column::A => "a",
            Column::Amount => "amount",
            Column::At => "at",
            Column::Attempt => "attempt",
            Column::B => "b",
            Column::Base => "base",
            Column::Batch => "batch",
            Column::ByWho => "by_who",
            Column::Class => "class",
            Column::Closed => "closed",
            Column::Content => "content",
            Column::Def => "def",
            Column::Due => "due",
            Column::High => "high",
            Column::Id => "id",
            Column::Job => "job",
            Column::Kind => "kind",
            Column::LiftAt => "lift_at",
            Column::LiftBy => "lift_by",
            Column::LiftNote => "lift_note",
            Column::Line => "line",
            Column::Lot => "lot",
            Column::Lot2 => "lot2",
            Column::Low => "low",
            Column::Name => "name",
            Column::Next => "next",
            Column::No => "no",
            Column::Note => "note",
            Column::Phase => "phase",
            Column::Place => "place",
            Column::Priority => "priority",
            Column::Product => "product",
            Column::Qty => "qty",
            Column::Recall => "recall",
            Column::Recipe => "recipe",
            Column::Seq => "seq",
            Column::Size => "size",
            Column::State => "state",
            Column::Stock => "stock",
            Column::Sub => "sub",
            Column::Sub2 => "sub2",
            Column::T1 => "t1",
            Column::T2 => "t2",
            Column::T3 => "t3",
            Column::Title => "title",
            Column::Unit => "unit",
            Column::Version => "version",
            Column::Word => "word",
        }
    }
}

/// The values of a row's key, in the order of its columns; or its position in the order of the key.
#[derive(Clone, Copy, Debug, PartialEq, Eq)]
pub enum RowKey {
    /// An id: of a definition, order, batch, lot or recall, or a reference of a receipt.
    Id(Id),
    /// A number: of an event, that of its command.
    Number(u64),
    /// Two ids: of a hold, its lot and its own.
    Ids(Id, Id),
    /// Two numbers: of a movement, that of its command and its line.
    Numbers(u64, u64),
    /// An id and a number: of a recipe with its version, a line of a control recipe with its batch, a sublot with its
    /// lot.
    IdNumber(Id, u64),
    /// An id and two numbers: of a line of a master recipe, its recipe, the version and its number.
    IdNumbers(Id, u64, u64),
    /// A number and two ids: of an edge, its kind and both ends.
    NumberIds(u64, Id, Id),
    /// An id, a number and an id: of a mark, its recall, its kind and what it is on.
    IdNumberId(Id, u64, Id),
    /// The position of a row whose key can't be read, counted from 1 on.
    Place(u64),
}

/// What a row or a column has.
#[derive(Clone, Copy, Debug, PartialEq, Eq)]
pub enum Found {
    /// This id.
    Id(Id),
    /// This number.
    Number(u64),
    /// The state of an order.
    Order(JobState),
    /// The state of a batch.
    State(BatchState),
    /// The kind of a movement.
    MovementKind(MovementKindCode),
    /// This whole number of the file.
    Integer(i64),
    /// This text of the file.
    Text(Text),
    /// A text of more than 60 bytes.
    LongText,
    /// A text of at most 60 bytes, not all of them from the space to `~`.
    OtherText,
    /// A real number.
    Real,
    /// A blob.
    Blob,
    /// NULL.
    Null,
    /// The row as a whole.
    Row,
    /// No row.
    Nothing,
}

/// What the rule wants there.
#[derive(Clone, Copy, Debug, PartialEq, Eq)]
pub enum Wanted {
    /// The key of a row of this table, one that fits.
    Key(Table),
    /// No such row.
    NoRow,
    /// The amounts that entered less those that left.
    Stock { entered: u128, left: u128 },
    /// The state that the events of the batch lead to.
    State(BatchState),
    /// The number that the events of the batch lead to.
    Number(u64),
    /// Events that are each allowed where they come: one is refused so.
    Allowed(Refusal),
    /// A size from the recipe's least to its greatest.
    Size { least: Amount, greatest: Amount },
    /// No batch of the order.
    NoBatch,
    /// A batch of the order that isn't closed.
    OpenBatch,
    /// A batch of the order that is closed.
    ClosedBatch,
    /// No other batch of the order.
    OneBatch,
    /// A well-formed recipe.
    WellFormed,
    /// Rows of the table that are numbered from this number on.
    NumberedFrom(Table, u8),
    /// The control recipe that the order of the batch asks for.
    Control,
    /// Movements of one number and one kind that bring the sublot its first amount, at most 10^15 in all; of another sublot
    /// than 0 one division.
    Birth,
    /// The columns that the kind of the row asks for.
    Columns,
    /// What the definitions of the lots, or the control recipe of the batch, allow.
    RightDefinition,
    /// At most 16 parts, of distinct pairs of lot and sublot.
    Parts,
    /// The number of an accepted command, which is at most this.
    Given(u64),
    /// A number that no event has.
    Apart,
    /// A number above those of the movements that brought what this one takes.
    Later,
    /// Line 1, or the next part of the merge before it.
    NextLine,
    /// No moment after this one, which is the desk's.
    NotAfter(u64),
    /// No moment before this one, which is that of a lower number.
    NotBefore(u64),
    /// A moment of the recall that isn't after that of its lifting, and neither of them after the desk's.
    Between,
    /// The edge that this movement makes.
    EdgeOf { seq: u64, line: u16 },
    /// The mark of an open recall on what it reaches.
    Mark,
    /// A number of its own.
    OwnNumber,
    /// One or more bytes from the space to `~` and LFs.
    Content,
    /// A value that obeys this rule.
    Value(ValueRule),
    /// Values that each obey their rule.
    Values,
}

/// A row that breaks a rule.
#[derive(Clone, Copy, Debug, PartialEq, Eq)]
pub struct RowFault {
    /// The table that has the row, or lacks it.
    pub table: Table,
    /// Its key.
    pub key: RowKey,
    /// The column that is wrong, where it is one.
    pub column: Option<Column>,
    /// What the row or its column has.
    pub found: Found,
    /// What the rule wants there.
    pub wanted: Wanted,
}
