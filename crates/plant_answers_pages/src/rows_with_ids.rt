// Rows that an id is the key of.
ghost use Rattle.std.specs.Prelude.{map};
ghost use Rattle.plant_view.specs.{batch_row};
ghost use Rattle.plant_answers_pages.specs.SortedIds.{batches_sorted};

use plant_base::{BatchRow, Class, Definition, Id, Job, Lot, Recall};
use plant_questions::{Page, Worklists};
use plant_view::{View, ViewFault, lookup};

/// A row that an id is the key of.
pub(crate) trait HasId: Sized {
    ghost use Rattle.std.specs.Prelude.{◌≡◌, ℕ, List, Some, IfOk, filter, find, is_some};
    ghost use Rattle.std.specs.List.Sorted.{IsStrictlySortedBy};
    ghost use Rattle.plant_base.specs.{id_cmp, same, State};
    ghost use Rattle.plant_trace.specs.ReadOnly.{ReadOnly};
    ghost use Rattle.plant_view.specs.DecisionInvariant.{DecisionInvariant};
    ghost use Rattle.plant_questions.specs.{is_after, page_of};

    /// The id.
    ghost id_of: { Self → List ℕ };

    /// All such rows of a state.
    ghost all: { State → List Self };

    /// In a consistent state they are in the order of their ids, and none has another's.
    ghost sorted: { (s : State) → DecisionInvariant s
        → IsStrictlySortedBy (λ (a b : Self). id_cmp (id_of a) (id_of b)) (all s) };

    /// The id.
    fn id(&self) -> Id
        ensures { result ≡ id_of self.now };

    /// Whether a row has this id.
    fn is_there<V: View>(view: &mut V, id: Id) -> Result<bool, ViewFault<V::Fault>>
        ensures { ReadOnly V.Edges view.old view.new
            (IfOk result (λ there. there ≡ is_some (find (λ r. same (id_of r) id) (all (V.state view.old))))) };

    /// A page of the rows whose ids come after this one.
    fn page_after<V: Worklists>(view: &mut V, id: Id) -> Result<Page<Self>, ViewFault<V::Fault>>
        ensures { ReadOnly V.Edges view.old view.new
            (IfOk result (λ page. page ≡ page_of (filter (λ r. is_after (Some id) (id_of r)) (all (V.state view.old))))) };
}

impl HasId for BatchRow {
    ghost id_of = { λ r. r.batch.id };

    ghost all = { λ s. map (batch_row s.control_lines s.events) s.batches };

    ghost sorted = { batches_sorted };

    fn id(&self) -> Id {
        self.batch.id
    }

    fn is_there<V: View>(view: &mut V, id: Id) -> Result<bool, ViewFault<V::Fault>> {
        lookup::is_batch(view, id)
    }

    fn page_after<V: Worklists>(
        view: &mut V,
        id: Id,
    ) -> Result<Page<BatchRow>, ViewFault<V::Fault>> {
        view.batches_after(Some(id)).map_err(ViewFault::View)
    }
}

impl HasId for Class {
    ghost id_of = { λ c. c.id };

    ghost all = { λ s. s.classes };

    ghost sorted = { λ s sound. sound.catalogue.classes };

    fn id(&self) -> Id {
        self.id
    }

    fn is_there<V: View>(view: &mut V, id: Id) -> Result<bool, ViewFault<V::Fault>> {
        match lookup::class(view, id) {
            Ok(row) => Ok(row.is_some()),
            Err(fault) => Err(fault),
        }
    }

    fn page_after<V: Worklists>(view: &mut V, id: Id) -> Result<Page<Class>, ViewFault<V::Fault>> {
        view.classes_after(Some(id)).map_err(ViewFault::View)
    }
}

impl HasId for Definition {
    ghost id_of = { λ d. d.id };

    ghost all = { λ s. s.definitions };

    ghost sorted = { λ s sound. sound.catalogue.definitions };

    fn id(&self) -> Id {
        self.id
    }

    fn is_there<V: View>(view: &mut V, id: Id) -> Result<bool, ViewFault<V::Fault>> {
        match lookup::definition(view, id) {
            Ok(row) => Ok(row.is_some()),
            Err(fault) => Err(fault),
        }
    }

    fn page_after<V: Worklists>(
        view: &mut V,
        id: Id,
    ) -> Result<Page<Definition>, ViewFault<V::Fault>> {
        view.definitions_after(Some(id)).map_err(ViewFault::View)
    }
}

impl HasId for Job {
    ghost id_of = { λ j. j.order.order };

    ghost all = { λ s. s.jobs };

    ghost sorted = { λ s sound. sound.production.orders.sorted };

    fn id(&self) -> Id {
        self.order.order
    }

    fn is_there<V: View>(view: &mut V, id: Id) -> Result<bool, ViewFault<V::Fault>> {
        match lookup::job(view, id) {
            Ok(row) => Ok(row.is_some()),
            Err(fault) => Err(fault),
        }
    }

    fn page_after<V: Worklists>(view: &mut V, id: Id) -> Result<Page<Job>, ViewFault<V::Fault>> {
        view.orders_after(Some(id)).map_err(ViewFault::View)
    }
}

impl HasId for Lot {
    ghost id_of = { λ l. l.id };

    ghost all = { λ s. s.lots };

    ghost sorted = { λ s sound. sound.stock.lots };

    fn id(&self) -> Id {
        self.id
    }

    fn is_there<V: View>(view: &mut V, id: Id) -> Result<bool, ViewFault<V::Fault>> {
        match lookup::lot(view, id) {
            Ok(row) => Ok(row.is_some()),
            Err(fault) => Err(fault),
        }
    }

    fn page_after<V: Worklists>(view: &mut V, id: Id) -> Result<Page<Lot>, ViewFault<V::Fault>> {
        view.lots_after(Some(id)).map_err(ViewFault::View)
    }
}

impl HasId for Recall {
    ghost id_of = { λ r. r.id };

    ghost all = { λ s. s.recalls };

    ghost sorted = { λ s sound. sound.bars.recalls };

    fn id(&self) -> Id {
        self.id
    }

    fn is_there<V: View>(view: &mut V, id: Id) -> Result<bool, ViewFault<V::Fault>> {
        match lookup::recall(view, id) {
            Ok(row) => Ok(row.is_some()),
            Err(fault) => Err(fault),
        }
    }

    fn page_after<V: Worklists>(view: &mut V, id: Id) -> Result<Page<Recall>, ViewFault<V::Fault>> {
        view.recalls_after(Some(id)).map_err(ViewFault::View)
    }
}
