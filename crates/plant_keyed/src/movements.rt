//! The movements that name a batch.

ghost use Rattle.std.specs.Prelude.{◌≡◌, IfOk};
ghost use Rattle.sqlite.specs.Held.{state};
ghost use Rattle.plant_view.specs.{movements_of};
ghost use Rattle.plant_keyed.specs.LookupOutcomes.{IsReported};
ghost use Rattle.plant_keyed.specs.StateShown.{abstraction};

use crate::keyed::Keyed;
use crate::lookup_texts;
use plant_base::{Id, Movement};
use plant_tables::table_defs::MOVEMENT;
use plant_tables_columns::storing::id;
use sql_tables::StoreFault;
use sqlite::Alter;

impl<'a, S: Alter> Keyed<'a, S> {
    /// The movements of a batch.
    pub(crate) fn movements_of_batch(&mut self, batch: &Id) -> Result<Vec<Movement>, StoreFault>
        ensures same_reference { self.new.conn.ghost_name ≡ self.old.conn.ghost_name }
        ensures reported { IsReported (state S.Store self.old.conn.now) (state S.Store self.new.conn.now)
            self.old.has_failed self.new.has_failed
            (IfOk result (λ rows. rows.items
            ≡ movements_of (abstraction (state S.Store self.old.conn.now).now) batch.now)) }
        ensures cached { self.new.cache.now ≡ self.old.cache.now }
    {
        self.found(&MOVEMENT, lookup_texts::MOVEMENTS_OF_BATCH, &[id(batch)])
    }
}
