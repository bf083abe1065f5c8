//! What rows are looked up by.

ghost use Rattle.std.specs.Prelude.{◌≡◌, ◌==◌, Some, None, if◌then◌else◌};
ghost use Rattle.std.specs.List.{list_any};
ghost use Rattle.plant_stock.specs.{entries, goes_to};
ghost use Rattle.plant_requirements.specs.Movements.{lot_among, is_merged, is_there, parts_of};

use grouped_rows::{Grouped, Grouping};
use plant_base::{BatchEvent, Id, Lot, Movement, MovementKind, Sublot};

/// Lots by their id.
pub struct Lots;

impl Grouping for Lots {
    type Row = Lot;

    type Key = Id;

    ghost key_of = { λ l. Some l.id };

    fn key(row: &Lot) -> Option<Id> {
        Some(row.id)
    }
}

/// Sublots by their lot and number.
pub struct Sublots;

impl Grouping for Sublots {
    type Row = Sublot;

    type Key = (Id, u16);

    ghost key_of = { λ s. Some (s.lot, s.number) };

    fn key(row: &Sublot) -> Option<(Id, u16)> {
        Some((row.lot, row.number))
    }
}

/// The parts of merges by their number.
pub struct Parts;

impl Grouping for Parts {
    type Row = Movement;

    type Key = u64;

    ghost key_of = { λ m. if is_merged m.kind then Some m.seq else None };

    fn key(row: &Movement) -> Option<u64> {
        match row.kind {
            MovementKind::Merged { .. } => Some(row.seq),
            _ => None,
        }
    }
}

/// Events by their number.
pub struct EventNumbers;

impl Grouping for EventNumbers {
    type Row = BatchEvent;

    type Key = u64;

    ghost key_of = { λ e. Some e.seq };

    fn key(row: &BatchEvent) -> Option<u64> {
        Some(row.seq)
    }
}

/// Movements by the sublot that they enter.
pub struct EnteredSublots;

impl Grouping for EnteredSublots {
    type Row = Movement;

    type Key = (Id, u16);

    ghost key_of = { λ m. goes_to m.kind m.lot m.sub };

    fn key(row: &Movement) -> Option<(Id, u16)> {
        match row.kind {
            MovementKind::Received | MovementKind::Produced { .. } => Some((row.lot, row.sub)),
            MovementKind::Consumed { .. } | MovementKind::Scrapped => None,
            MovementKind::Divided { to } => Some((row.lot, to)),
            MovementKind::Split { to } | MovementKind::Merged { to } => Some((to, 0)),
        }
    }
}

/// The first lot with the id, or `None`.
pub fn lot_at(lots: &Grouped<Lots>, id: Id) -> Option<Lot>
    ensures { result ≡ lot_among lots.now.rows.now id }
{
    lots.first(id)
}

/// Whether there is a sublot of this lot and number; true where none is named.
pub fn is_there(sublots: &Grouped<Sublots>, place: Option<(Id, u16)>) -> bool
    ensures { result ≡ is_there sublots.now.rows.now place }
{
    match place {
        None => true,
        Some(key) => sublots.has(key),
    }
}

/// The movements that are parts of the merge with this number, in the order of the rows.
pub fn parts_of<'a>(parts: &'a Grouped<Parts>, seq: u64) -> &'a [Movement]
    ensures { result.now ≡ parts_of parts.now.rows.now seq }
{
    parts.at(seq)
}

/// Whether an event has the number.
pub fn has_event(events: &Grouped<EventNumbers>, seq: u64) -> bool
    ensures { result ≡ list_any (λ e. e.seq == seq) events.now.rows.now }
{
    events.has(seq)
}

/// The movements that enter the sublot of this lot and number, in the order of the rows.
pub fn entries<'a>(entered: &'a Grouped<EnteredSublots>, place: (Id, u16)) -> &'a [Movement]
    ensures { result.now ≡ entries entered.now.rows.now place.0 place.1 }
{
    entered.at(place)
}
