//! The whole record.
ghost use Rattle.std.specs.Prelude.{◌≡◌, IfOk, Some, string_bytes};
ghost use Rattle.plant_text_answers.specs.Record.{record_text};

use crate::head::Head;
use crate::lines::{ConsumedLine, ControlLineText, EventLine, ProducedLine};
use crate::totals::Totals;
use plant_base::Joined;
use plant_questions::BatchView;
use std::alloc::{AllocError, Global};
use std::fmt;

/// The record of a batch.
#[derive(Clone, Copy)]
struct WholeRecord<'a>(&'a BatchView);

impl fmt::Display for WholeRecord<'_> {
    ghost output = { λ r. Some (record_text r.0.now) };

    #[tactic(auto, unfolding(crate::specs::Record::record_text))]
    fn fmt<W: fmt::Write>(&self, f: &mut fmt::Formatter<W>) -> fmt::Result {
        let view = self.0;
        let head = Head(view);
        let lines = Joined(view.lines.as_slice(), ControlLineText);
        let events = Joined(view.events.as_slice(), EventLine);
        let consumed = Joined(view.consumed.as_slice(), ConsumedLine);
        let produced = Joined(view.produced.as_slice(), ProducedLine);
        let totals = Totals(view);
        write!(f, "{head}")?;
        write!(f, "CONTROL RECIPE\n{lines}")?;
        write!(f, "EVENTS\n{events}")?;
        write!(f, "CONSUMED\n{consumed}")?;
        write!(f, "PRODUCED\n{produced}")?;
        writeln!(f, "{totals}END")
    }
}

/// The record of a batch as a text of lines, each ended by an LF (batch record of IEC 61512-1).
///
/// Its head names the batch, its order, its recipe, its release and its state; then come the control recipe, the events,
/// what was consumed, what was produced, and for each input and each output what was asked for and what was booked.
/// A line of the control recipe whose unit isn't known has `?` in its place.
/// The only error is that memory was refused.
pub fn record(alloc: Global, view: &BatchView) -> Result<String, AllocError>
    ensures { IfOk result (λ text. string_bytes text ≡ record_text view.now) }
{
    WholeRecord(view).to_string(alloc)
}
