//! The keys of rows.
ghost use Rattle.std.specs.Prelude.{◌≡◌};
ghost use Rattle.plant_requirements.specs.Keys.{booked_key, control_line_key, edge_key, hold_key};
ghost use Rattle.plant_requirements.specs.Keys.{id_key, mark_key, number_key, recipe_key};
ghost use Rattle.plant_requirements.specs.Keys.{recipe_line_key, sublot_key};

use crate::fault::RowKey;
use plant_base::{ControlLine, EdgeRow, Header, Hold, Id, Mark, MasterLine, Sublot};

/// The key of a row that is known by its id alone.
pub fn id_key(id: Id) -> RowKey
    ensures { result ≡ id_key id }
{
    RowKey::Id(id)
}

/// The key of a row that is known by a number alone, as an event by that of its command.
pub fn number_key(number: u64) -> RowKey
    ensures { result ≡ number_key number }
{
    RowKey::Number(number)
}

/// The key of a master recipe: its id and version.
pub fn recipe_key(header: &Header) -> RowKey
    ensures { result ≡ recipe_key header.now }
{
    RowKey::IdNumber(header.recipe, u64::from(header.version))
}

/// The key of a line of a master recipe: the recipe, its version and the number of the line.
pub fn recipe_line_key(line: &MasterLine) -> RowKey
    ensures { result ≡ recipe_line_key line.now }
{
    let version = u64::from(line.version);
    let number = u64::from(line.number);
    RowKey::IdNumbers(line.recipe, version, number)
}

/// The key of a line of a control recipe: the batch and the number of the line.
pub fn control_line_key(line: &ControlLine) -> RowKey
    ensures { result ≡ control_line_key line.now }
{
    RowKey::IdNumber(line.batch, u64::from(line.number))
}

/// The key of a sublot: the lot and its number.
pub fn sublot_key(sublot: &Sublot) -> RowKey
    ensures { result ≡ sublot_key sublot.now }
{
    RowKey::IdNumber(sublot.lot, u64::from(sublot.number))
}

/// The key of a hold: the lot and the hold's id.
pub fn hold_key(hold: &Hold) -> RowKey
    ensures { result ≡ hold_key hold.now }
{
    RowKey::Ids(hold.lot, hold.id)
}

/// The key of a movement.
/// It is the number of its command and its line.
pub fn booked_key(seq: u64, line: u16) -> RowKey
    ensures { result ≡ booked_key seq line }
{
    RowKey::Numbers(seq, u64::from(line))
}

/// The key of an edge: its kind and both ends.
pub fn edge_key(edge: &EdgeRow) -> RowKey
    ensures { result ≡ edge_key edge.now }
{
    RowKey::NumberIds(u64::from(edge.kind.number()), edge.from, edge.to)
}

/// The key of a mark: the recall, the kind of what it is on, and that one's id.
pub fn mark_key(mark: &Mark) -> RowKey
    ensures { result ≡ mark_key mark.now }
{
    RowKey::IdNumberId(mark.recall, u64::from(mark.kind.number()), mark.id)
}
