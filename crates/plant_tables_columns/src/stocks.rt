//! Rows of lots, sublots, movements and holds.

ghost use Rattle.std.specs.Prelude.{◌≡◌, ◌∷◌, []};
ghost use Rattle.sqlite.specs.Values.{bound};
ghost use Rattle.sqlite_value.specs.Value.{owned};
ghost use Rattle.sqlite_value.specs.declared.value.Value.TheVariants.{Text as Bytes};
ghost use Rattle.plant_tables_columns.specs.Booked.{code_of, other_lot, other_sublot};
ghost use Rattle.plant_view.specs.{batch_by};
ghost use Rattle.plant_tables_columns.specs.Kinds.{number, null_or};
ghost use Rattle.plant_tables_columns.specs.Naming.{movement_kind_number};
ghost use Rattle.plant_tables_columns.specs.TableColumns.{row_of_lot, lot_from, row_of_sublot};
ghost use Rattle.plant_tables_columns.specs.TableColumns.{sublot_from, booked_from};
ghost use Rattle.plant_tables_columns.specs.TableColumns.{row_of_movement, movement_read};
ghost use Rattle.plant_tables_columns.specs.TableColumns.{row_of_hold, hold_from};

use crate::booked::{BookedRow, movement_kind_code};
use crate::decoded::Decoded;
use crate::reading::{
    amount, columns, id, line_number, moment, number, optional_id, optional_sublot, sublot_number,
    text,
};
use crate::storing;
use plant_base::{
    Amount, GREATEST_AMOUNT, GREATEST_SEQ, Hold, Id, Lot, Moment, Movement, MovementKind, Sublot,
    Text,
};
use sqlite::Row;
use sqlite_value::value::ValueRef;

/// A row of `lot`.
pub fn lot_values(row: &Lot) -> [ValueRef<'_>; 2]
    ensures { bound result ≡ row_of_lot row.now }
{
    [storing::id(&row.id), storing::id(&row.def)]
}

impl Decoded for Lot {
    ghost row_from = { lot_from };

    #[tactic(auto, unfolding(crate::specs::TableColumns::lot_from))]
    fn decode(row: &Row) -> Option<Lot> {
        columns(row, 2)?;
        Some(Lot {
            id: id(row, 0)?,
            def: id(row, 1)?,
        })
    }
}

/// The stock is given as a value.
pub fn sublot_values<'a>(row: &'a Sublot, stock: ValueRef<'a>) -> [ValueRef<'a>; 4]
    requires { owned stock ≡ number row.now.stock }
    ensures { bound result ≡ row_of_sublot row.now }
{
    [
        storing::id(&row.lot),
        storing::small(row.number),
        storing::text(&row.place),
        stock,
    ]
}

impl Decoded for Sublot {
    ghost row_from = { sublot_from };

    #[tactic(auto, unfolding(crate::specs::TableColumns::sublot_from))]
    fn decode(row: &Row) -> Option<Sublot> {
        columns(row, 4)?;
        Some(Sublot {
            lot: id(row, 0)?,
            number: sublot_number(row, 1)?,
            place: text(row, 2)?,
            stock: number(row, 3, 0, GREATEST_AMOUNT)?,
        })
    }
}

/// The number of its sort.
fn kind_code_number(kind: &MovementKind) -> u16
    ensures { result ≡ movement_kind_number (code_of kind.now) }
{
    match kind {
        MovementKind::Received => 1,
        MovementKind::Consumed { .. } => 2,
        MovementKind::Produced { .. } => 3,
        MovementKind::Scrapped => 4,
        MovementKind::Divided { .. } => 5,
        MovementKind::Split { .. } => 6,
        MovementKind::Merged { .. } => 7,
    }
}

/// The columns lot2, sub2 and batch of a movement of this lot.
fn kind_values<'a>(kind: &'a MovementKind, lot: &'a Id) -> [ValueRef<'a>; 3]
    ensures { bound result ≡ null_or Bytes (other_lot kind.now lot.now)
        ∷ null_or number (other_sublot kind.now) ∷ null_or Bytes (batch_by kind.now) ∷ [] }
{
    match kind {
        MovementKind::Received | MovementKind::Scrapped => [
            ValueRef::Null,
            ValueRef::Null,
            ValueRef::Null,
        ],
        MovementKind::Consumed { batch } | MovementKind::Produced { batch } => [
            ValueRef::Null,
            ValueRef::Null,
            storing::id(batch),
        ],
        MovementKind::Divided { to } => [storing::id(lot), storing::small(*to), ValueRef::Null],
        MovementKind::Split { to } | MovementKind::Merged { to } => [
            storing::id(to),
            storing::small(0),
            ValueRef::Null,
        ],
    }
}

/// The seq is given as a value.
pub fn movement_values<'a>(row: &'a Movement, seq: ValueRef<'a>) -> [ValueRef<'a>; 12]
    requires { owned seq ≡ number row.now.seq }
    ensures { bound result ≡ row_of_movement row.now }
{
    let [lot2, sub2, batch] = kind_values(&row.kind, &row.lot);
    [
        seq,
        storing::small(row.line),
        storing::small(kind_code_number(&row.kind)),
        storing::id(&row.lot),
        storing::small(row.sub),
        lot2,
        sub2,
        batch,
        storing::amount(row.amount),
        storing::moment(row.at),
        storing::text(&row.by),
        storing::text(&row.note),
    ]
}

impl Decoded for BookedRow {
    ghost row_from = { booked_from };

    #[tactic(auto, unfolding(crate::specs::TableColumns::booked_from))]
    fn decode(row: &Row) -> Option<BookedRow> {
        columns(row, 12)?;
        Some(BookedRow {
            seq: number(row, 0, 0, GREATEST_SEQ)?,
            line: line_number(row, 1)?,
            kind_code: movement_kind_code(row, 2)?,
            lot: id(row, 3)?,
            sub: sublot_number(row, 4)?,
            lot2: optional_id(row, 5)?,
            sub2: optional_sublot(row, 6)?,
            batch: optional_id(row, 7)?,
            amount: amount(row, 8)?,
            at: moment(row, 9)?,
            by: text(row, 10)?,
            note: text(row, 11)?,
        })
    }
}

impl Decoded for Movement {
    ghost row_from = { movement_read };

    #[tactic(auto, unfolding(crate::specs::TableColumns::movement_read))]
    fn decode(row: &Row) -> Option<Movement> {
        // The checker can't follow movements, unless the function names these types.
        let _: Option<(Id, MovementKind, Amount, Moment, Text)> = None;
        let booked = BookedRow::decode(row)?;
        booked.movement()
    }
}

/// A row of `hold`.
pub fn hold_values(row: &Hold) -> [ValueRef<'_>; 5]
    ensures { bound result ≡ row_of_hold row.now }
{
    [
        storing::id(&row.lot),
        storing::id(&row.id),
        storing::moment(row.at),
        storing::text(&row.by),
        storing::text(&row.note),
    ]
}

impl Decoded for Hold {
    ghost row_from = { hold_from };

    #[tactic(auto, unfolding(crate::specs::TableColumns::hold_from))]
    fn decode(row: &Row) -> Option<Hold> {
        columns(row, 5)?;
        Some(Hold {
            lot: id(row, 0)?,
            id: id(row, 1)?,
            at: moment(row, 2)?,
            by: text(row, 3)?,
            note: text(row, 4)?,
        })
    }
}
