//! Rows of table recall, whatever their state asks of the columns of their lifting.

ghost use Rattle.std.specs.Prelude.{◌≡◌, ◌∷◌, []};
ghost use Rattle.sqlite.specs.Order.{column};
ghost use Rattle.sqlite.specs.Values.{bound};
ghost use Rattle.sqlite_value.specs.declared.value.Value.TheVariants.{Text as Bytes};
ghost use Rattle.plant_tables_columns.specs.Kinds.{number, null_or};
ghost use Rattle.plant_tables_columns.specs.Naming.{named, recall_state_name, all_recall_states};
ghost use Rattle.plant_tables_columns.specs.Naming.{recall_state_from};
ghost use Rattle.plant_tables_columns.specs.StatedRecalls.{has_no_lifting, complete_lifting};
ghost use Rattle.plant_tables_columns.specs.StatedRecalls.{lifting_from, recall_from, state_by};
ghost use Rattle.plant_tables_columns.specs.StatedRecalls.{moment_of_lift, person_of_lift};
ghost use Rattle.plant_tables_columns.specs.StatedRecalls.{note_of_lift};
ghost use Rattle.plant_tables_columns.specs.TableColumns.{row_of_recall, stated_from, recall_read};

use crate::decoded::Decoded;
use crate::reading::{bytes, columns, id, moment, optional_moment, optional_text, text};
use crate::storing;
use plant_base::{Id, Lifting, Moment, Recall, Text};
use sqlite::Row;
use sqlite_value::value::ValueRef;

/// Whether a recall still blocks what came of its lot.
#[derive(Clone, Copy, Debug, PartialEq, Eq)]
pub enum RecallState {
    /// It does.
    Open,
    /// It did, until it was lifted.
    Lifted,
}

impl RecallState {
    /// Its word in the table.
    pub fn name(self) -> &'static str
        ensures { result.now ≡ recall_state_name self }
    {
        match self {
            RecallState::Open => "open",
            RecallState::Lifted => "lifted",
        }
    }
}

fn recall_state_named(name: &[u8]) -> Option<RecallState>
    ensures { result ≡ named recall_state_name all_recall_states name.now }
{
    [RecallState::Open, RecallState::Lifted]
        .iter()
        .copied()
        .find(|state| state.name().as_bytes() == name)
}

/// The state of a recall of this name.
#[tactic(auto, unfolding(crate::specs::Naming::recall_state_from))]
fn recall_state(row: &Row, at: usize) -> Option<RecallState>
    ensures { result ≡ recall_state_from (column row.now at) }
{
    recall_state_named(bytes(row, at)?)
}

/// A row of table recall whose values obey their rules, whatever its state asks of the columns of its lifting.
#[derive(Clone, Copy, Debug, PartialEq, Eq)]
pub struct StatedRecall {
    /// Identifies the recall; unique among recalls, also of those that were lifted.
    pub id: Id,
    /// The lot that is recalled.
    pub lot: Id,
    /// Whether the recall is open or lifted, as its column says.
    pub state: RecallState,
    /// When the command was given.
    pub at: Moment,
    /// The operator who gave the command; it may be empty.
    pub by: Text,
    /// The operator's note; empty where there is none.
    pub note: Text,
    /// When it was lifted, where the row has it.
    pub lift_at: Option<Moment>,
    /// Who lifted it, where the row has it.
    pub lift_by: Option<Text>,
    /// What was said then, where the row has it.
    pub lift_note: Option<Text>,
}

impl StatedRecall {
    /// Whether it has no column of a lifting.
    fn has_no_lifting(&self) -> bool
        ensures { result ≡ has_no_lifting self.now }
    {
        self.lift_at.is_none() && self.lift_by.is_none() && self.lift_note.is_none()
    }

    /// The lifting, where it has all of it.
    fn complete_lifting(&self) -> Option<Lifting>
        ensures { result ≡ complete_lifting self.now }
    {
        let at = self.lift_at?;
        let by = self.lift_by?;
        let note = self.lift_note?;
        Some(Lifting { at, by, note })
    }

    /// The lifting of a recall in its state. `None` where its columns are those of another.
    fn lifting(&self) -> Option<Option<Lifting>>
        ensures { result ≡ lifting_from self.now }
    {
        match self.state {
            RecallState::Open => {
                if self.has_no_lifting() {
                    Some(None)
                } else {
                    None
                }
            }
            RecallState::Lifted => {
                let reported = self.complete_lifting()?;
                Some(Some(reported))
            }
        }
    }

    /// The recall that is decoded from it. `None` exactly where the columns of its lifting aren't those of its state: an open
    /// recall has none of them, and a lifted one has all.
    #[tactic(auto, unfolding(crate::specs::StatedRecalls::recall_from))]
    pub fn recall(&self) -> Option<Recall>
        ensures { result ≡ recall_from self.now }
    {
        let lifting = self.lifting()?;
        Some(Recall {
            id: self.id,
            lot: self.lot,
            at: self.at,
            by: self.by,
            note: self.note,
            lifting,
        })
    }
}

/// The state of a recall with this lifting.
fn state_by(lifting: &Option<Lifting>) -> RecallState
    ensures { result ≡ state_by lifting.now }
{
    match lifting {
        Some(_) => RecallState::Lifted,
        None => RecallState::Open,
    }
}

/// The columns of a lifting, each NULL where there is none.
fn lifting_values(lifting: &Option<Lifting>) -> [ValueRef<'_>; 3]
    ensures { bound result ≡ null_or number (moment_of_lift lifting.now)
        ∷ null_or Bytes (person_of_lift lifting.now) ∷ null_or Bytes (note_of_lift lifting.now) ∷ [] }
{
    match lifting {
        Some(lifting) => [
            storing::moment(lifting.at),
            storing::text(&lifting.by),
            storing::text(&lifting.note),
        ],
        None => [ValueRef::Null, ValueRef::Null, ValueRef::Null],
    }
}

/// A row of `recall`.
pub fn recall_values(row: &Recall) -> [ValueRef<'_>; 9]
    ensures { bound result ≡ row_of_recall row.now }
{
    let [lift_at, lift_by, lift_note] = lifting_values(&row.lifting);
    [
        storing::id(&row.id),
        storing::id(&row.lot),
        storing::word(state_by(&row.lifting).name()),
        storing::moment(row.at),
        storing::text(&row.by),
        storing::text(&row.note),
        lift_at,
        lift_by,
        lift_note,
    ]
}

impl Decoded for StatedRecall {
    ghost row_from = { stated_from };

    #[tactic(auto, unfolding(crate::specs::TableColumns::stated_from))]
    fn decode(row: &Row) -> Option<StatedRecall> {
        columns(row, 9)?;
        Some(StatedRecall {
            id: id(row, 0)?,
            lot: id(row, 1)?,
            state: recall_state(row, 2)?,
            at: moment(row, 3)?,
            by: text(row, 4)?,
            note: text(row, 5)?,
            lift_at: optional_moment(row, 6)?,
            lift_by: optional_text(row, 7)?,
            lift_note: optional_text(row, 8)?,
        })
    }
}

impl Decoded for Recall {
    ghost row_from = { recall_read };

    #[tactic(auto, unfolding(crate::specs::TableColumns::recall_read))]
    fn decode(row: &Row) -> Option<Recall> {
        // The checker can't follow recalls, unless the function names these types.
        let _: Option<(Id, Moment, Text, Lifting)> = None;
        let stated = StatedRecall::decode(row)?;
        stated.recall()
    }
}
