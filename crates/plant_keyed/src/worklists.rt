// Pages of the desk's lists, each by a query with the value that the list is of, the cursor to go on from, and a limit; the
// movements of a lot; and pages of what lots have.

ghost use Rattle.std.specs.Prelude.{◌≡◌, if◌then◌else◌};

use crate::faults::if_memory;
use crate::keyed::Keyed;
use crate::{lookup_texts, texts};
use plant_base::{
    BatchRow, Class, Definition, Due, Hold, Id, Job, JobState, Lot, Movement, Recall, Receipt,
    Recipe, RecipeState, Sublot,
};
use plant_questions::{
    Cursor, Page, Worklists, due_text_after, merge_pages, movement_after, order_text_after,
    recipe_text_after, version_after,
};
use plant_tables::table_defs::{
    BATCH, CLASS, DEFINITION, HOLD, JOB, LOT, MOVEMENT, RECALL, RECEIPT, RECIPE, SUBLOT,
};
use plant_tables_columns::RecallState;
use plant_tables_columns::storing::{id as text_of, large, small, truth, word};
use sql_queries::first_key;
use sql_tables::StoreFault;
use sqlite::Alter;

/// The state of the recalls that are open, or of those that were lifted.
fn recall_state(are_open: bool) -> RecallState
    ensures { result ≡ (if are_open then RecallState.Open else RecallState.Lifted) }
{
    if are_open {
        RecallState::Open
    } else {
        RecallState::Lifted
    }
}

impl<'a, S: Alter> Worklists for Keyed<'a, S> {
    fn orders_in(&mut self, state: JobState, cursor: Option<Id>) -> Result<Page<Job>, StoreFault> {
        self.page_with(&JOB, texts::ORDERS_IN_STATE, word(state.name()), &cursor)
    }

    // By the columns due and id.
    fn orders_by_due(
        &mut self,
        state: JobState,
        cursor: Option<Cursor<Due, Id>>,
    ) -> Result<Page<Job>, StoreFault> {
        self.page_beyond(
            &JOB,
            &[5, 1],
            texts::ORDERS_BY_DUE_AT,
            texts::ORDERS_BY_DUE,
            word(state.name()),
            word(due_text_after(&cursor)),
            word(order_text_after(&cursor)),
        )
    }

    // By the column seq.
    fn receipts_after(&mut self, cursor: Option<u64>) -> Result<Page<Receipt>, StoreFault> {
        self.receipts_page_after(&RECEIPT, &[2], texts::RECEIPTS_AFTER, cursor)
    }

    fn batches_in(
        &mut self,
        closed: bool,
        cursor: Option<Id>,
    ) -> Result<Page<BatchRow>, StoreFault> {
        self.page_with(&BATCH, texts::BATCHES_BY_CLOSED, truth(closed), &cursor)
    }

    fn lots_of(&mut self, def: Id, cursor: Option<Id>) -> Result<Page<Lot>, StoreFault> {
        self.page_with(&LOT, texts::LOTS_OF_DEFINITION, text_of(&def), &cursor)
    }

    fn holds_on(&mut self, lot: Id, cursor: Option<Id>) -> Result<Page<Hold>, StoreFault> {
        self.page_with(&HOLD, texts::HOLDS_ON_LOT, text_of(&lot), &cursor)
    }

    fn recalls_in(
        &mut self,
        are_open: bool,
        cursor: Option<Id>,
    ) -> Result<Page<Recall>, StoreFault> {
        self.page_with(
            &RECALL,
            texts::RECALLS_IN_STATE,
            word(recall_state(are_open).name()),
            &cursor,
        )
    }

    fn classes_after(&mut self, cursor: Option<Id>) -> Result<Page<Class>, StoreFault> {
        self.page_after(&CLASS, texts::CLASSES_AFTER, &cursor)
    }

    fn definitions_in(
        &mut self,
        class: Id,
        cursor: Option<Id>,
    ) -> Result<Page<Definition>, StoreFault> {
        self.page_with(
            &DEFINITION,
            texts::DEFINITIONS_OF_CLASS,
            text_of(&class),
            &cursor,
        )
    }

    fn recipes_in(
        &mut self,
        state: RecipeState,
        cursor: Option<Cursor<Id, u16>>,
    ) -> Result<Page<Recipe>, StoreFault> {
        self.page_beyond(
            &RECIPE,
            first_key(&RECIPE),
            texts::RECIPES_IN_STATE_AT,
            texts::RECIPES_IN_STATE,
            word(state.name()),
            word(recipe_text_after(&cursor)),
            small(version_after(&cursor)),
        )
    }

    fn ledger_of(
        &mut self,
        lot: Id,
        cursor: Option<Cursor<u64, u16>>,
    ) -> Result<Page<Movement>, StoreFault> {
        let place = movement_after(&cursor);
        let seq = large(place.first)?;
        let line = small(place.second);
        let by = first_key(&MOVEMENT);
        let named = self.page_beyond(
            &MOVEMENT,
            by,
            texts::LEDGER_AT,
            texts::LEDGER,
            text_of(&lot),
            seq,
            line,
        )?;
        let made = self.page_beyond(
            &MOVEMENT,
            by,
            texts::LEDGER_BY_SECOND_AT,
            texts::LEDGER_BY_SECOND,
            text_of(&lot),
            seq,
            line,
        )?;
        if_memory(merge_pages(self.alloc, &named, &made))
    }

    fn movements_into(&mut self, lot: Id) -> Result<Vec<Movement>, StoreFault> {
        self.found(
            &MOVEMENT,
            lookup_texts::MOVEMENTS_INTO_LOT,
            &[text_of(&lot)],
        )
    }

    fn movements_of_lot(&mut self, lot: Id) -> Result<Vec<Movement>, StoreFault> {
        self.found(&MOVEMENT, lookup_texts::MOVEMENTS_OF_LOT, &[text_of(&lot)])
    }

    fn lots_after(&mut self, cursor: Option<Id>) -> Result<Page<Lot>, StoreFault> {
        self.page_after(&LOT, texts::LOTS_AFTER, &cursor)
    }

    fn sublots_after(&mut self, cursor: Option<Id>) -> Result<Page<Sublot>, StoreFault> {
        self.page_after(&SUBLOT, texts::SUBLOTS_AFTER, &cursor)
    }

    fn sublots_in_stock(&mut self) -> Result<Vec<Sublot>, StoreFault> {
        self.all_with_amount(&SUBLOT, texts::SUBLOTS_ABOVE)
    }

    fn holds_after(&mut self, cursor: Option<Id>) -> Result<Page<Hold>, StoreFault> {
        self.page_after(&HOLD, texts::HOLDS_AFTER, &cursor)
    }

    fn definitions_after(&mut self, cursor: Option<Id>) -> Result<Page<Definition>, StoreFault> {
        self.page_after(&DEFINITION, texts::DEFINITIONS_AFTER, &cursor)
    }

    fn orders_after(&mut self, cursor: Option<Id>) -> Result<Page<Job>, StoreFault> {
        self.page_after(&JOB, texts::ORDERS_AFTER, &cursor)
    }

    fn batches_after(&mut self, cursor: Option<Id>) -> Result<Page<BatchRow>, StoreFault> {
        self.page_after(&BATCH, texts::BATCHES_AFTER, &cursor)
    }

    fn recalls_after(&mut self, cursor: Option<Id>) -> Result<Page<Recall>, StoreFault> {
        self.page_after(&RECALL, texts::RECALLS_AFTER, &cursor)
    }

    fn recipes_after(&mut self, cursor: Option<Id>) -> Result<Page<Recipe>, StoreFault> {
        self.page_after(&RECIPE, texts::RECIPES_AFTER, &cursor)
    }

    fn versions_of(&mut self, recipe: Id) -> Result<Vec<Recipe>, StoreFault> {
        self.found(
            &RECIPE,
            lookup_texts::VERSIONS_OF_RECIPE,
            &[text_of(&recipe)],
        )
    }
}
