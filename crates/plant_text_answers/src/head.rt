//! The head of the record: the batch, its order, its recipe, its release and its state.
ghost use Rattle.std.specs.Prelude.{◌≡◌, Some};
ghost use Rattle.plant_text_answers.specs.Record.{batch_text, head_text, open_or_closed, order_text};
ghost use Rattle.plant_text_answers.specs.Record.{recipe_text, released_text, state_text};
ghost use Rattle.plant_questions.specs.{phases_in};

use crate::items::AtBy;
use plant_base::{Batch, Header, Job, OrderRow};
use plant_questions::{BatchView, phases_in};
use std::fmt;

/// Which batch it is.
#[derive(Clone, Copy)]
struct BatchLine(Batch);

impl fmt::Display for BatchLine {
    ghost output = { λ l. Some (batch_text l.0) };

    fn fmt<W: fmt::Write>(&self, f: &mut fmt::Formatter<W>) -> fmt::Result {
        let id = self.0.id.as_str();
        write!(f, "BATCH RECORD {id}")
    }
}

/// What was ordered.
#[derive(Clone, Copy)]
struct OrderLine(Job);

impl fmt::Display for OrderLine {
    ghost output = { λ l. Some (order_text l.0) };

    fn fmt<W: fmt::Write>(&self, f: &mut fmt::Formatter<W>) -> fmt::Result {
        let order = self.0.order;
        let id = order.order.as_str();
        let due = order.due.as_str();
        let priority = order.priority;
        let state = self.0.state.name();
        write!(f, "order {id} due {due} priority {priority} state {state}")
    }
}

/// The recipe that was ordered, and its header.
#[derive(Clone, Copy)]
struct RecipeHead {
    order: OrderRow,
    header: Header,
}

impl fmt::Display for RecipeHead {
    ghost output = { λ l. Some (recipe_text l.order l.header) };

    fn fmt<W: fmt::Write>(&self, f: &mut fmt::Formatter<W>) -> fmt::Result {
        let recipe = self.order.recipe.as_str();
        let version = self.order.version;
        let product = self.header.product.as_str();
        let size = self.order.size.get();
        let base = self.header.base.get();
        write!(
            f,
            "recipe {recipe} {version} product {product} size {size} base {base}"
        )
    }
}

/// When and by whom the batch was released.
#[derive(Clone, Copy)]
struct ReleasedLine(Batch);

impl fmt::Display for ReleasedLine {
    ghost output = { λ l. Some (released_text l.0) };

    fn fmt<W: fmt::Write>(&self, f: &mut fmt::Formatter<W>) -> fmt::Result {
        let reported = AtBy {
            at: self.0.at,
            by: self.0.by,
            note: self.0.note,
        };
        write!(f, "released {reported}")
    }
}

/// How far the batch has come, and how many phases it has.
#[derive(Clone, Copy)]
struct StateLine<'a>(&'a BatchView);

impl fmt::Display for StateLine<'_> {
    ghost output = { λ l. Some (state_text l.0.now.progress (phases_in l.0.now.lines)) };

    fn fmt<W: fmt::Write>(&self, f: &mut fmt::Formatter<W>) -> fmt::Result {
        let progress = self.0.progress;
        let state = progress.state.name();
        let attempt = progress.attempt;
        let done = progress.next.saturating_sub(1);
        let phases = phases_in(self.0.lines.as_slice());
        let closed = open_or_closed(progress.closed);
        write!(
            f,
            "state {state} attempt {attempt} phases {done} of {phases} {closed}"
        )
    }
}

fn open_or_closed(closed: bool) -> &'static str
    ensures { result.now ≡ open_or_closed closed }
{
    if closed { "closed" } else { "open" }
}

/// The lines before the first section.
#[derive(Clone, Copy)]
pub(crate) struct Head<'a>(pub(crate) &'a BatchView);

impl fmt::Display for Head<'_> {
    ghost output = { λ head. Some (head_text head.0.now) };

    fn fmt<W: fmt::Write>(&self, f: &mut fmt::Formatter<W>) -> fmt::Result {
        let view = self.0;
        let batch = BatchLine(view.batch);
        let order = OrderLine(view.job);
        let recipe = RecipeHead {
            order: view.job.order,
            header: view.header,
        };
        let released = ReleasedLine(view.batch);
        let state = StateLine(view);
        writeln!(f, "{batch}")?;
        writeln!(f, "{order}")?;
        writeln!(f, "{recipe}")?;
        writeln!(f, "{released}")?;
        writeln!(f, "{state}")
    }
}
