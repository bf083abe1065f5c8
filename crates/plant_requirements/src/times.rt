//! The moments of movements and events.

ghost use Rattle.std.specs.Prelude.{◌≡◌, IfOk};
ghost use Rattle.plant_requirements.specs.Times.{row_marks, never_fall, rises};

use plant_base::{BatchEvent, Movement};
use std::alloc::{AllocError, Global};

/// Whether moments don't fall as the numbers of movements and events rise. The only error is that memory was refused.
pub fn moments_never_fall(
    alloc: Global,
    movements: &[Movement],
    events: &[BatchEvent],
) -> Result<bool, AllocError>
    ensures { IfOk result (λ b. b ≡ never_fall (row_marks movements.now events.now)) }
{
    let mut marks = marks_of(alloc, movements, events)?;
    Ok(never_fall(marks.as_mut_slice()))
}

// The number and the moment of each movement and event.
fn marks_of(
    alloc: Global,
    movements: &[Movement],
    events: &[BatchEvent],
) -> Result<Vec<(u64, u64)>, AllocError>
    ensures { IfOk result (λ list. list.items ≡ row_marks movements.now events.now) }
{
    let mut marks = Vec::new(alloc);
    for movement in movements {
        marks.push((movement.seq, movement.at.get()))?;
    }
    for event in events {
        marks.push((event.seq, event.at.get()))?;
    }
    Ok(marks)
}

// The marks are put in order.
fn never_fall(marks: &mut [(u64, u64)]) -> bool
    ensures { result ≡ never_fall marks.old }
{
    marks.sort_unstable();
    rises(marks)
}

// Whether the moments don't fall along the list.
fn rises(marks: &[(u64, u64)]) -> bool
    ensures { result ≡ rises 0 marks.now }
{
    let mut latest = 0;
    for mark in marks {
        if mark.1 < latest {
            return false;
        }
        latest = mark.1;
    }
    true
}
