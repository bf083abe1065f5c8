//! Rows of table movement, whatever their kind asks of their columns.

ghost use Rattle.std.specs.Prelude.{◌≡◌, pos};
ghost use Rattle.sqlite.specs.Order.{column};
ghost use Rattle.plant_tables_columns.specs.Naming.{numbered, movement_kind_number};
ghost use Rattle.plant_tables_columns.specs.Naming.{all_movement_kind_codes, movement_kind_from};
ghost use Rattle.plant_tables_columns.specs.Booked.{names_nothing, batch_named, lot_named};
ghost use Rattle.plant_tables_columns.specs.Booked.{sublot_named, kind_from, movement_from};

use crate::reading::integer;
use plant_base::{Amount, Id, Moment, Movement, MovementKind, Text};
use sqlite::Row;

/// What a movement does.
#[derive(Clone, Copy, Debug, PartialEq, Eq)]
pub enum MovementKindCode {
    /// The amount comes to the lot from outside.
    Received,
    /// A batch takes the amount from the lot.
    Consumed,
    /// A batch brings the amount to the lot.
    Produced,
    /// The amount is thrown away.
    Scrapped,
    /// The amount goes to another sublot of the lot.
    Divided,
    /// The amount goes to sublot 0 of a new lot.
    Split,
    /// The amount goes to sublot 0 of a new lot, as one of the parts that make it.
    Merged,
}

impl MovementKindCode {
    /// Its number in the table, 1 to 7.
    pub fn number(self) -> i64
        ensures { result ≡ pos (movement_kind_number self) }
    {
        match self {
            MovementKindCode::Received => 1,
            MovementKindCode::Consumed => 2,
            MovementKindCode::Produced => 3,
            MovementKindCode::Scrapped => 4,
            MovementKindCode::Divided => 5,
            MovementKindCode::Split => 6,
            MovementKindCode::Merged => 7,
        }
    }
}

fn movement_kind_numbered(number: &i64) -> Option<MovementKindCode>
    ensures { result ≡ numbered movement_kind_number all_movement_kind_codes number.now }
{
    [
        MovementKindCode::Received,
        MovementKindCode::Consumed,
        MovementKindCode::Produced,
        MovementKindCode::Scrapped,
        MovementKindCode::Divided,
        MovementKindCode::Split,
        MovementKindCode::Merged,
    ]
    .iter()
    .copied()
    .find(|kind_code| kind_code.number() == *number)
}

/// The sort of movement of this number.
#[tactic(auto, unfolding(crate::specs::Naming::movement_kind_from))]
pub(crate) fn movement_kind_code(row: &Row, at: usize) -> Option<MovementKindCode>
    ensures { result ≡ movement_kind_from (column row.now at) }
{
    let number = integer(row, at)?;
    movement_kind_numbered(&number)
}

/// A row of table movement whose values obey their rules, whatever its kind asks of its columns.
#[derive(Clone, Copy, Debug, PartialEq, Eq)]
pub struct BookedRow {
    /// The number of the command that booked it, 0 to [`GREATEST_SEQ`](plant_base::GREATEST_SEQ).
    pub seq: u64,
    /// 1 to 65535, or 0 where no line can have the number that is stored.
    pub line: u16,
    /// The kind of the movement.
    pub kind_code: MovementKindCode,
    /// The lot that the amount came to, if received or produced; else the lot that it was taken from.
    pub lot: Id,
    /// 0 to [`GREATEST_SUBLOT`](plant_base::GREATEST_SUBLOT).
    pub sub: u16,
    /// The lot that it brings the amount to, where it names one.
    pub lot2: Option<Id>,
    /// The sublot that it brings the amount to, where it names one.
    pub sub2: Option<u16>,
    /// The batch that takes or brings the amount, where it names one.
    pub batch: Option<Id>,
    /// The amount moved, in the unit of the lot's definition.
    pub amount: Amount,
    /// When the command was given.
    pub at: Moment,
    /// The operator who gave the command; it may be empty.
    pub by: Text,
    /// The operator's note; empty where there is none.
    pub note: Text,
}

impl BookedRow {
    /// Whether it names neither a sublot nor a batch.
    fn names_nothing(&self) -> bool
        ensures { result ≡ names_nothing self.now }
    {
        self.lot2.is_none() && self.sub2.is_none() && self.batch.is_none()
    }

    /// The batch, where that alone is named.
    fn batch_named(&self) -> Option<Id>
        ensures { result ≡ batch_named self.now }
    {
        if self.lot2.is_some() || self.sub2.is_some() {
            return None;
        }
        self.batch
    }

    /// The lot of which sublot 0 is named, and no batch.
    fn lot_named(&self) -> Option<Id>
        ensures { result ≡ lot_named self.now }
    {
        if self.sub2 != Some(0) || self.batch.is_some() {
            return None;
        }
        self.lot2
    }

    /// The sublot of the same lot that is named, and no batch.
    fn sublot_named(&self) -> Option<u16>
        ensures { result ≡ sublot_named self.now }
    {
        if self.lot2 != Some(self.lot) || self.batch.is_some() {
            return None;
        }
        self.sub2
    }

    /// What the movement does, with what its columns name. `None` where they aren't those of the sort.
    fn kind(&self) -> Option<MovementKind>
        ensures { result ≡ kind_from self.now }
    {
        match self.kind_code {
            MovementKindCode::Received => {
                if self.names_nothing() {
                    Some(MovementKind::Received)
                } else {
                    None
                }
            }
            MovementKindCode::Scrapped => {
                if self.names_nothing() {
                    Some(MovementKind::Scrapped)
                } else {
                    None
                }
            }
            MovementKindCode::Consumed => {
                let batch = self.batch_named()?;
                Some(MovementKind::Consumed { batch })
            }
            MovementKindCode::Produced => {
                let batch = self.batch_named()?;
                Some(MovementKind::Produced { batch })
            }
            MovementKindCode::Divided => {
                let to = self.sublot_named()?;
                Some(MovementKind::Divided { to })
            }
            MovementKindCode::Split => {
                let to = self.lot_named()?;
                Some(MovementKind::Split { to })
            }
            MovementKindCode::Merged => {
                let to = self.lot_named()?;
                Some(MovementKind::Merged { to })
            }
        }
    }

    /// The movement that it books. `None` exactly where its columns aren't those of its kind: a movement of a batch
    /// names the batch alone; a divided amount goes to a sublot of the same lot; a split or merged one to sublot 0 of
    /// the lot that it names; a received or scrapped one names nothing.
    #[tactic(auto, unfolding(crate::specs::Booked::movement_from))]
    pub fn movement(&self) -> Option<Movement>
        ensures { result ≡ movement_from self.now }
    {
        let kind = self.kind()?;
        Some(Movement {
            seq: self.seq,
            line: self.line,
            kind,
            lot: self.lot,
            sub: self.sub,
            amount: self.amount,
            at: self.at,
            by: self.by,
            note: self.note,
        })
    }
}
