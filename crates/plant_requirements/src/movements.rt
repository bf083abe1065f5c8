//! What movements name, and what their definitions are.

ghost use Rattle.std.specs.Prelude.{◌≡◌, IfOk};
ghost use Rattle.std.specs.List.{list_any};
ghost use Rattle.plant_stock.specs.{is_one_source};
ghost use Rattle.plant_view.specs.{batch_by};
ghost use Rattle.plant_requirements.specs.Movements.{is_batch_there, are_of_one, is_asked_for};
ghost use Rattle.plant_requirements.specs.Movements.{is_yielded, is_of_right_definition, is_merged};
ghost use Rattle.plant_requirements.specs.Movements.{are_distinct, are_parts, is_of_right_merge};

use crate::plan_keys::{Batches, ControlLines, control_of, has_batch};
use crate::stock_keys::{Lots, Parts, Sublots, lot_at, parts_of};
use grouped_rows::Grouped;
use plant_base::{BatchRow, ControlLine, Id, Lot, Movement, MovementKind, Sublot};
use plant_view::{is_made, is_taken};
use std::alloc::{AllocError, Global};

/// A merge has no more parts.
const GREATEST_PARTS: usize = 16;

/// What movements name.
#[derive(Drop)]
pub struct Named<'a> {
    /// The lots by id.
    pub lots: Grouped<'a, Lots>,
    /// The sublots by lot and number.
    pub sublots: Grouped<'a, Sublots>,
    /// The batches by id.
    pub batches: Grouped<'a, Batches>,
    /// The lines of control recipes by batch.
    pub controls: Grouped<'a, ControlLines>,
}

impl<'a> Named<'a> {
    /// Groups the lots, sublots, batches and control lines by their keys. The only error is that memory was refused.
    pub fn new(
        alloc: Global,
        lots: &'a [Lot],
        sublots: &'a [Sublot],
        batches: &'a [BatchRow],
        control: &'a [ControlLine],
    ) -> Result<Self, AllocError>
        ensures { IfOk result (λ n. (n.lots.rows.now ≡ lots.now)
            × (n.sublots.rows.now ≡ sublots.now) × (n.batches.rows.now ≡ batches.now)
            × (n.controls.rows.now ≡ control.now)) }
    {
        let lots = Grouped::<Lots>::new(alloc, lots)?;
        let sublots = Grouped::<Sublots>::new(alloc, sublots)?;
        let batches = Grouped::<Batches>::new(alloc, batches)?;
        let controls = Grouped::<ControlLines>::new(alloc, control)?;
        Ok(Named {
            lots,
            sublots,
            batches,
            controls,
        })
    }

    /// Whether the batch, where one is named, is there.
    pub fn has_batch(&self, batch: Option<Id>) -> bool
        ensures { result ≡ is_batch_there self.now.batches.rows.now batch }
    {
        match batch {
            None => true,
            Some(id) => has_batch(&self.batches, id),
        }
    }

    /// Whether what goes from lot to lot is of one definition, and a batch takes and makes what its recipe says.
    pub fn allows(&self, movement: &Movement) -> bool
        ensures { result ≡ is_of_right_definition self.now.lots.rows.now self.now.controls.rows.now
            movement.now.kind movement.now.lot }
    {
        let lot = lot_at(&self.lots, movement.lot);
        match movement.kind {
            MovementKind::Received | MovementKind::Scrapped | MovementKind::Divided { .. } => true,
            MovementKind::Consumed { batch } => is_asked_for(
                control_of(&self.controls, batch),
                lot,
            ),
            MovementKind::Produced { batch } => is_yielded(control_of(&self.controls, batch), lot),
            MovementKind::Split { to } | MovementKind::Merged { to } => {
                are_of_one(lot, lot_at(&self.lots, to))
            }
        }
    }
}

/// The batch that the movement names.
/// `None` where its kind names none: it is neither consumed nor produced.
pub fn batch_by(movement: &Movement) -> Option<Id>
    ensures { result ≡ batch_by movement.now.kind }
{
    match movement.kind {
        MovementKind::Consumed { batch } | MovementKind::Produced { batch } => Some(batch),
        _ => None,
    }
}

fn are_of_one(a: Option<Lot>, b: Option<Lot>) -> bool
    ensures { result ≡ are_of_one a b }
{
    match (a, b) {
        (Some(a), Some(b)) => a.def == b.def,
        _ => false,
    }
}

fn is_asked_for(lines: &[ControlLine], lot: Option<Lot>) -> bool
    ensures { result ≡ is_asked_for lines.now lot }
{
    match lot {
        None => false,
        Some(lot) => is_taken(lines, lot.def),
    }
}

fn is_yielded(lines: &[ControlLine], lot: Option<Lot>) -> bool
    ensures { result ≡ is_yielded lines.now lot }
{
    match lot {
        None => false,
        Some(lot) => is_made(lines, lot.def),
    }
}

/// Whether the parts of its merge, where it is one, are at most 16, of distinct pairs of lot and sublot.
pub fn is_of_right_merge(parts: &Grouped<Parts>, movement: &Movement) -> bool
    ensures { result ≡ is_of_right_merge parts.now.rows.now movement.now }
{
    !is_merged(movement.kind) || are_parts(parts_of(parts, movement.seq))
}

fn is_merged(kind: MovementKind) -> bool
    ensures { result ≡ is_merged kind }
{
    matches!(kind, MovementKind::Merged { .. })
}

// Whether they are at most 16, of distinct pairs of lot and sublot.
fn are_parts(parts: &[Movement]) -> bool
    ensures { result ≡ are_parts parts.now }
{
    parts.len() <= GREATEST_PARTS && are_distinct(parts)
}

fn are_distinct(parts: &[Movement]) -> bool
    ensures { result ≡ are_distinct parts.now }
{
    for (index, part) in parts.iter().enumerate() {
        if is_named_again(part, &parts[index + 1..]) {
            return false;
        }
    }
    true
}

fn is_named_again(part: &Movement, others: &[Movement]) -> bool
    ensures { result ≡ list_any (is_one_source part.now) others.now }
{
    others.iter().any(|other| is_one_source(part, other))
}

fn is_one_source(a: &Movement, b: &Movement) -> bool
    ensures { result ≡ is_one_source a.now b.now }
{
    a.lot == b.lot && a.sub == b.sub
}
