//! The marks of open recalls on a lot or batch.

ghost use Rattle.std.specs.Prelude.{◌≡◌, IfOk};
ghost use Rattle.sqlite.specs.Held.{state};
ghost use Rattle.plant_view.specs.{node_at, marks_on};
ghost use Rattle.plant_keyed.specs.Edges.{id_of};
ghost use Rattle.plant_keyed.specs.LookupOutcomes.{IsReported};
ghost use Rattle.plant_keyed.specs.StateShown.{abstraction};

use crate::edges::id_of;
use crate::keyed::Keyed;
use crate::lookup_texts;
use plant_base::{Mark, MarkKind};
use plant_tables::table_defs::MARK;
use plant_tables_columns::storing::{id as text_of, small};
use plant_trace::Node;
use sql_tables::StoreFault;
use sqlite::Alter;

/// What a mark on the node is on.
fn kind_of(node: &Node) -> MarkKind
    ensures { node_at result (id_of node.now) ≡ node.now }
{
    match node {
        Node::Lot(_) => MarkKind::Lot,
        Node::Batch(_) => MarkKind::Batch,
    }
}

impl<'a, S: Alter> Keyed<'a, S> {
    /// The marks on a lot or batch, by the recalls' ids: one for each open recall that reaches it. The faults are those of
    /// each lookup.
    pub(crate) fn marks_at(&mut self, node: &Node) -> Result<Vec<Mark>, StoreFault>
        ensures same_reference { self.new.conn.ghost_name ≡ self.old.conn.ghost_name }
        ensures reported { IsReported (state S.Store self.old.conn.now) (state S.Store self.new.conn.now)
            self.old.has_failed self.new.has_failed
            (IfOk result (λ rows. rows.items
            ≡ marks_on (abstraction (state S.Store self.old.conn.now).now) node.now)) }
        ensures cached { self.new.cache.now ≡ self.old.cache.now }
    {
        let kind = kind_of(node);
        let key = [small(kind.number()), text_of(id_of(node))];
        self.found(&MARK, lookup_texts::MARKS_ON_NODE, &key)
    }
}
