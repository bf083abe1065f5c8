use crate::cursors::Cursor;
use crate::page::Page;
use plant_base::{
    BatchRow, Class, Definition, Due, Hold, Id, Job, JobState, Lot, Movement, Recall, Receipt,
    Recipe, RecipeState, Sublot,
};
use plant_view::View;

/// The rows of a state, and what questions alone look up: pages of its lists, of each list what comes after an id or a
/// cursor of two values, or its beginning where none is given, the movements of a lot, and pages of what lots have, lot by
/// lot. The id or cursor needn't be there.
///
/// The contract of a page is like that of every lookup of a [`View`], and holds in every state.
pub trait Worklists: View {
    ghost use Rattle.std.specs.Prelude.{◌≡◌, IfOk};
    ghost use Rattle.plant_trace.specs.ReadOnly.{ReadOnly};
    ghost use Rattle.plant_questions.specs.Pages.{page_of};
    ghost use Rattle.plant_questions.specs.Worklists.{orders_in, batches_in, lots_of, holds_on};
    ghost use Rattle.plant_questions.specs.Worklists.{recalls_in, classes_after, definitions_in};
    ghost use Rattle.plant_questions.specs.Worklists.{recipes_in, ledger_of, movements_into};
    ghost use Rattle.plant_questions.specs.Worklists.{orders_by_due, receipts_by_number};
    ghost use Rattle.plant_questions.specs.Worklists.{lots_after, sublots_after, holds_after};
    ghost use Rattle.plant_questions.specs.Worklists.{movements_of_lot, sublots_in_stock};
    ghost use Rattle.plant_questions.specs.Worklists.{definitions_after};
    ghost use Rattle.plant_questions.specs.Worklists.{orders_after, batches_after, recalls_after};
    ghost use Rattle.plant_questions.specs.Worklists.{recipes_after, versions_of};
    ghost use Rattle.plant_view.specs.DecisionInvariant.{DecisionInvariant};

    /// The orders in a state, by their ids.
    fn orders_in(&mut self, state: JobState, cursor: Option<Id>) -> Result<Page<Job>, Self::Fault>
        ensures { ReadOnly Self.Edges self.old self.new
            (IfOk result (λ page. page ≡ page_of (orders_in (Self.state self.old) state cursor))) };

    /// The orders in a state by their due dates, and those of one day by their ids: what comes after a cursor.
    fn orders_by_due(
        &mut self,
        state: JobState,
        cursor: Option<Cursor<Due, Id>>,
    ) -> Result<Page<Job>, Self::Fault>
        ensures { ReadOnly Self.Edges self.old self.new
            (IfOk result (λ page. page ≡ page_of (orders_by_due (Self.state self.old) state cursor))) };

    /// The receipts of commands, by the numbers of these: what comes after a number.
    fn receipts_after(&mut self, cursor: Option<u64>) -> Result<Page<Receipt>, Self::Fault>
        ensures { ReadOnly Self.Edges self.old self.new
            (IfOk result (λ page. page ≡ page_of (receipts_by_number (Self.state self.old) cursor))) };

    /// The batches that are closed, or those that aren't, with the columns that are the fold of their events, by their ids.
    fn batches_in(
        &mut self,
        closed: bool,
        cursor: Option<Id>,
    ) -> Result<Page<BatchRow>, Self::Fault>
        ensures { ReadOnly Self.Edges self.old self.new
            (IfOk result (λ page. page ≡ page_of (batches_in (Self.state self.old) closed cursor))) };

    /// The lots of a definition, by their ids.
    fn lots_of(&mut self, def: Id, cursor: Option<Id>) -> Result<Page<Lot>, Self::Fault>
        ensures { ReadOnly Self.Edges self.old self.new
            (IfOk result (λ page. page ≡ page_of (lots_of (Self.state self.old) def cursor))) };

    /// The holds of a lot, by their ids.
    fn holds_on(&mut self, lot: Id, cursor: Option<Id>) -> Result<Page<Hold>, Self::Fault>
        ensures { ReadOnly Self.Edges self.old self.new
            (IfOk result (λ page. page ≡ page_of (holds_on (Self.state self.old) lot cursor))) };

    /// The recalls that weren't lifted, or those that were, by their ids.
    fn recalls_in(
        &mut self,
        are_open: bool,
        cursor: Option<Id>,
    ) -> Result<Page<Recall>, Self::Fault>
        ensures { ReadOnly Self.Edges self.old self.new
            (IfOk result (λ page. page ≡ page_of (recalls_in (Self.state self.old) are_open cursor))) };

    /// The classes, by their ids.
    fn classes_after(&mut self, cursor: Option<Id>) -> Result<Page<Class>, Self::Fault>
        ensures { ReadOnly Self.Edges self.old self.new
            (IfOk result (λ page. page ≡ page_of (classes_after (Self.state self.old) cursor))) };

    /// The definitions of a class, by their ids.
    fn definitions_in(
        &mut self,
        class: Id,
        cursor: Option<Id>,
    ) -> Result<Page<Definition>, Self::Fault>
        ensures { ReadOnly Self.Edges self.old self.new
            (IfOk result (λ page. page ≡ page_of (definitions_in (Self.state self.old) class cursor))) };

    /// The versions of recipes in a state, by their recipes and their numbers: what comes after a cursor.
    fn recipes_in(
        &mut self,
        state: RecipeState,
        cursor: Option<Cursor<Id, u16>>,
    ) -> Result<Page<Recipe>, Self::Fault>
        ensures { ReadOnly Self.Edges self.old self.new
            (IfOk result (λ page. page ≡ page_of (recipes_in (Self.state self.old) state cursor))) };

    /// The ledger of a lot: the movements that bring to it or take from it, or move within it, by their numbers and lines,
    /// those into it by a split or a merge among them; what comes after a cursor.
    fn ledger_of(
        &mut self,
        lot: Id,
        cursor: Option<Cursor<u64, u16>>,
    ) -> Result<Page<Movement>, Self::Fault>
        ensures { ReadOnly Self.Edges self.old self.new
            (IfOk result (λ page. page ≡ page_of (ledger_of (Self.state self.old) lot cursor))) };

    /// The movements that bring something to a lot from another sublot, in their order: the split or the merge that made it, and
    /// what was divided in it.
    fn movements_into(&mut self, lot: Id) -> Result<Vec<Movement>, Self::Fault>
        ensures { ReadOnly Self.Edges self.old self.new
            (IfOk result (λ rows. rows.items ≡ movements_into (Self.state self.old) lot)) };

    /// The movements of a lot, in their order: those that made it of nothing that was here, and all that take from it.
    fn movements_of_lot(&mut self, lot: Id) -> Result<Vec<Movement>, Self::Fault>
        ensures { ReadOnly Self.Edges self.old self.new
            (IfOk result (λ rows. rows.items ≡ movements_of_lot (Self.state self.old) lot)) };

    /// The lots that come after one, by their ids.
    fn lots_after(&mut self, cursor: Option<Id>) -> Result<Page<Lot>, Self::Fault>
        ensures { ReadOnly Self.Edges self.old self.new
            (IfOk result (λ page. page ≡ page_of (lots_after (Self.state self.old) cursor))) };

    /// The sublots of the lots that come after one, with their stock, by lot and number. The stocks are right where the state is
    /// consistent.
    fn sublots_after(&mut self, cursor: Option<Id>) -> Result<Page<Sublot>, Self::Fault>
        ensures { ReadOnly Self.Edges self.old self.new
            (DecisionInvariant (Self.state self.old)
            → IfOk result (λ page. page ≡ page_of (sublots_after (Self.state self.old) cursor))) };

    /// The sublots that have stock, of all lots, by lot and number. They are right where the state is consistent.
    fn sublots_in_stock(&mut self) -> Result<Vec<Sublot>, Self::Fault>
        ensures { ReadOnly Self.Edges self.old self.new
            (DecisionInvariant (Self.state self.old)
            → IfOk result (λ rows. rows.items ≡ sublots_in_stock (Self.state self.old))) };

    /// The holds of the lots that come after one, by lot and id.
    fn holds_after(&mut self, cursor: Option<Id>) -> Result<Page<Hold>, Self::Fault>
        ensures { ReadOnly Self.Edges self.old self.new
            (IfOk result (λ page. page ≡ page_of (holds_after (Self.state self.old) cursor))) };

    /// The definitions of all classes that come after one, by their ids.
    fn definitions_after(&mut self, cursor: Option<Id>) -> Result<Page<Definition>, Self::Fault>
        ensures { ReadOnly Self.Edges self.old self.new
            (IfOk result (λ page. page ≡ page_of (definitions_after (Self.state self.old) cursor))) };

    /// The orders in any state that come after one, by their ids.
    fn orders_after(&mut self, cursor: Option<Id>) -> Result<Page<Job>, Self::Fault>
        ensures { ReadOnly Self.Edges self.old self.new
            (IfOk result (λ page. page ≡ page_of (orders_after (Self.state self.old) cursor))) };

    /// The batches, closed or not, that come after one, by their ids.
    fn batches_after(&mut self, cursor: Option<Id>) -> Result<Page<BatchRow>, Self::Fault>
        ensures { ReadOnly Self.Edges self.old self.new
            (IfOk result (λ page. page ≡ page_of (batches_after (Self.state self.old) cursor))) };

    /// The recalls, lifted or not, that come after one, by their ids.
    fn recalls_after(&mut self, cursor: Option<Id>) -> Result<Page<Recall>, Self::Fault>
        ensures { ReadOnly Self.Edges self.old self.new
            (IfOk result (λ page. page ≡ page_of (recalls_after (Self.state self.old) cursor))) };

    /// The versions in any state of the recipes that come after one, by recipe and number.
    fn recipes_after(&mut self, cursor: Option<Id>) -> Result<Page<Recipe>, Self::Fault>
        ensures { ReadOnly Self.Edges self.old self.new
            (IfOk result (λ page. page ≡ page_of (recipes_after (Self.state self.old) cursor))) };

    /// The versions of a recipe, by their numbers.
    fn versions_of(&mut self, recipe: Id) -> Result<Vec<Recipe>, Self::Fault>
        ensures { ReadOnly Self.Edges self.old self.new
            (IfOk result (λ rows. rows.items ≡ versions_of (Self.state self.old) recipe)) };
}
