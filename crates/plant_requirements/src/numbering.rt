//! The numbers of movements and events.

ghost use Rattle.std.specs.Prelude.{◌≡◌, nat_lt};
ghost use Rattle.std.specs.List.{list_all};
ghost use Rattle.plant_base.specs.declared.rows.MovementKind.TheVariants as kind;
ghost use Rattle.plant_stock.specs.{are_one_merge};
ghost use Rattle.plant_requirements.specs.Numbering.{is_given, is_next_part, is_line_after};
ghost use Rattle.plant_requirements.specs.Numbering.{is_next_line, is_entered_before};

use crate::stock_keys::{EnteredSublots, entries};
use grouped_rows::Grouped;
use plant_base::{Id, Movement, MovementKind};

/// Whether it is the number of an accepted command, `greatest` being the last one.
pub fn is_given(greatest: u64, seq: u64) -> bool
    ensures { result ≡ is_given greatest seq }
{
    1 <= seq && seq <= greatest
}

/// Whether each movement that enters the sublot, where one is named, has a lower number.
pub fn is_entered_before(
    entered: &Grouped<EnteredSublots>,
    seq: u64,
    place: Option<(Id, u16)>,
) -> bool
    ensures { result ≡ is_entered_before entered.now.rows.now seq place }
{
    match place {
        None => true,
        Some(place) => are_before(entries(entered, place), seq),
    }
}

fn are_before(movements: &[Movement], seq: u64) -> bool
    ensures { result ≡ list_all (λ m. nat_lt m.seq seq) movements.now }
{
    movements.iter().all(|m| m.seq < seq)
}

/// Whether it is line 1 of a number, or the next part of the merge before it.
pub fn is_next_line(before: Option<Movement>, movement: &Movement) -> bool
    ensures { result ≡ is_next_line before movement.now }
{
    match before {
        None => movement.line == 1,
        Some(before) => is_next_after(&before, movement),
    }
}

fn is_next_after(before: &Movement, movement: &Movement) -> bool
    ensures { result ≡ is_line_after before.now movement.now }
{
    if before.seq == movement.seq {
        is_next_part(before, movement)
    } else {
        movement.line == 1
    }
}

// Whether it is the next part of the merge before it.
fn is_next_part(before: &Movement, movement: &Movement) -> bool
    ensures { result ≡ is_next_part before.now movement.now }
{
    u32::from(movement.line) == u32::from(before.line) + 1
        && are_one_merge(before.kind, movement.kind)
}

fn are_one_merge(a: MovementKind, b: MovementKind) -> bool
    ensures { result ≡ are_one_merge a b }
{
    match a {
        MovementKind::Merged { to } => is_merged_into(to, b),
        _ => false,
    }
}

fn is_merged_into(lot: Id, other: MovementKind) -> bool
    ensures { result ≡ are_one_merge (kind.Merged lot) other }
{
    match other {
        MovementKind::Merged { to } => lot == to,
        _ => false,
    }
}
