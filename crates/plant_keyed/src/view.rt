// Lookups over a connection as a view: honest while the store keeps its specification and no lookup fails, over the tables of a
// valid state.
ghost use Rattle.std.specs.Prelude.{◌≡◌, refl};
ghost use Rattle.std.proofs.Common.{ap};
ghost use Rattle.sqlite.specs.Held.{state};
ghost use Rattle.plant_trace.specs.{same_along};
ghost use Rattle.plant_view.specs.{edges_of};
ghost use Rattle.plant_keyed.specs.LookupOutcomes.{IsHonest, PreservesFrame};
ghost use Rattle.plant_keyed.specs.StateShown.{abstraction};
ghost use Rattle.plant_keyed.specs.Caching.{IsCacheOf, CacheStaysValid};
ghost use Rattle.plant_keyed.specs.Frames.{frame_refl, frame_trans, stays_refl, stays_trans};

use crate::keyed::Keyed;
use crate::lookup_texts;
use plant_base::{
    Batch, BatchEvent, BatchRow, Class, ControlLine, Definition, Hold, Id, Job, Lot, Mark,
    MasterLine, Movement, Position, Recall, Receipt, Recipe, Sublot,
};
use plant_tables::table_defs::{
    BATCH, BATCH_EVENT, CLASS, CONTROL_LINE, DEFINITION, HOLD, JOB, LOT, MOVEMENT, RECALL, RECIPE,
    RECIPE_LINE, SUBLOT,
};
use plant_tables_columns::storing::{id as text_of, small};
use plant_trace::{Direction, Edges, Node};
use plant_view::View;
use sql_tables::StoreFault;
use sqlite::Alter;

impl<'a, S: Alter> Edges for Keyed<'a, S> {
    type Fault = StoreFault;

    ghost honest = { λ k. IsHonest (state S.Store k.conn.now) k.has_failed
        × IsCacheOf (abstraction (state S.Store k.conn.now).now) k.cache.now };

    ghost pairs = { λ k. edges_of (abstraction (state S.Store k.conn.now).now) };

    ghost kept = { λ k l. (state S.Store l.conn.now).now ≡ (state S.Store k.conn.now).now };

    ghost frame = { λ k l. (l.conn.ghost_name ≡ k.conn.ghost_name)
        × PreservesFrame (state S.Store k.conn.now) (state S.Store l.conn.now) k.has_failed l.has_failed
        × CacheStaysValid (state S.Store k.conn.now).now (state S.Store l.conn.now) l.has_failed k.cache.now l.cache.now };

    fn succ(&mut self, node: Node) -> Result<Vec<Node>, StoreFault> {
        self.next_nodes(node, Direction::Forward)
    }

    fn pred(&mut self, node: Node) -> Result<Vec<Node>, StoreFault> {
        self.next_nodes(node, Direction::Back)
    }

    ghost kept_refl = { λ k. refl };

    ghost kept_trans = { λ k l m a b. same_along a b };

    ghost frame_refl = { λ k. (
      refl,
      frame_refl _ k.has_failed,
      stays_refl _ k.has_failed k.cache.now,
    ) };

    ghost frame_trans = { λ k l m a b. (
      same_along a.0 b.0,
      frame_trans _ _ _ _ _ _ a.1 b.1,
      stays_trans _ _ _ k.has_failed l.has_failed m.has_failed k.cache.now l.cache.now m.cache.now b.1 a.2 b.2,
    ) };

    ghost kept_pairs = { λ k l a. ap (λ db. edges_of (abstraction db)) a };
}

impl<'a, S: Alter> View for Keyed<'a, S> {
    ghost state = { λ k. abstraction (state S.Store k.conn.now).now };

    fn position(&mut self) -> Result<Position, StoreFault> {
        self.known_position()
    }

    fn class(&mut self, id: Id) -> Result<Option<Class>, StoreFault> {
        self.first_found(&CLASS, lookup_texts::CLASS_BY_ID, &[text_of(&id)])
    }

    fn definition(&mut self, id: Id) -> Result<Option<Definition>, StoreFault> {
        self.first_found(&DEFINITION, lookup_texts::DEFINITION_BY_ID, &[text_of(&id)])
    }

    fn recipe(&mut self, id: Id, version: u16) -> Result<Option<Recipe>, StoreFault> {
        let key = [text_of(&id), small(version)];
        self.first_found(&RECIPE, lookup_texts::RECIPE_BY_KEY, &key)
    }

    fn master_lines(&mut self, id: Id, version: u16) -> Result<Vec<MasterLine>, StoreFault> {
        let key = [text_of(&id), small(version)];
        self.found(&RECIPE_LINE, lookup_texts::LINES_OF_RECIPE, &key)
    }

    fn job(&mut self, order: Id) -> Result<Option<Job>, StoreFault> {
        self.first_found(&JOB, lookup_texts::JOB_BY_ID, &[text_of(&order)])
    }

    fn batch(&mut self, id: Id) -> Result<Option<BatchRow>, StoreFault> {
        self.first_found(&BATCH, lookup_texts::BATCH_BY_ID, &[text_of(&id)])
    }

    fn batch_for(&mut self, order: Id) -> Result<Option<Batch>, StoreFault> {
        match self.first_found::<BatchRow>(
            &BATCH,
            lookup_texts::BATCH_BY_JOB,
            &[text_of(&order)],
        )? {
            Some(row) => Ok(Some(row.batch)),
            None => Ok(None),
        }
    }

    fn events(&mut self, batch: Id) -> Result<Vec<BatchEvent>, StoreFault> {
        self.found(
            &BATCH_EVENT,
            lookup_texts::EVENTS_OF_BATCH,
            &[text_of(&batch)],
        )
    }

    fn batch_movements(&mut self, batch: Id) -> Result<Vec<Movement>, StoreFault> {
        self.movements_of_batch(&batch)
    }

    fn control_lines(&mut self, batch: Id) -> Result<Vec<ControlLine>, StoreFault> {
        self.found(
            &CONTROL_LINE,
            lookup_texts::LINES_OF_BATCH,
            &[text_of(&batch)],
        )
    }

    fn lot(&mut self, id: Id) -> Result<Option<Lot>, StoreFault> {
        self.first_found(&LOT, lookup_texts::LOT_BY_ID, &[text_of(&id)])
    }

    fn sublot(&mut self, lot: Id, number: u16) -> Result<Option<Sublot>, StoreFault> {
        let key = [text_of(&lot), small(number)];
        self.first_found(&SUBLOT, lookup_texts::SUBLOT_BY_KEY, &key)
    }

    fn sublots(&mut self, lot: Id) -> Result<Vec<Sublot>, StoreFault> {
        self.found(&SUBLOT, lookup_texts::SUBLOTS_OF_LOT, &[text_of(&lot)])
    }

    fn scraps(&mut self, lot: Id) -> Result<Vec<Movement>, StoreFault> {
        let key = [text_of(&lot), small(SCRAPPED)];
        self.found(&MOVEMENT, lookup_texts::MOVEMENTS_OF_LOT_AND_KIND, &key)
    }

    fn hold(&mut self, lot: Id, id: Id) -> Result<Option<Hold>, StoreFault> {
        let key = [text_of(&lot), text_of(&id)];
        self.first_found(&HOLD, lookup_texts::HOLD_BY_KEY, &key)
    }

    fn holds(&mut self, lot: Id) -> Result<Vec<Hold>, StoreFault> {
        self.found(&HOLD, lookup_texts::HOLDS_OF_LOT, &[text_of(&lot)])
    }

    fn receipt(&mut self, reference: Id) -> Result<Option<Receipt>, StoreFault> {
        self.receipt_of(&reference)
    }

    fn recall(&mut self, id: Id) -> Result<Option<Recall>, StoreFault> {
        self.first_found(&RECALL, lookup_texts::RECALL_BY_ID, &[text_of(&id)])
    }

    fn marks(&mut self, node: Node) -> Result<Vec<Mark>, StoreFault> {
        self.marks_at(&node)
    }

    ghost kept_state = { λ k l a. ap abstraction a };

    ghost pairs_of_state = { λ k. refl };
}

/// The number of the kind of movements that scrap.
const SCRAPPED: u16 = 4;
