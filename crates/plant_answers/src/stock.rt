// What is answered of the stock of a definition: its lots that have some, the oldest first.
ghost use Rattle.std.specs.Prelude.{◌≡◌, [], IfOk, Some, filter, filter_map, map, slice_get, refl};
ghost use Rattle.plant_trace.specs.ReadOnly.{ReadOnly};
ghost use Rattle.plant_view.specs.DecisionInvariant.{DecisionInvariant};
ghost use Rattle.plant_questions.specs.{page_of, sublots_in_stock};
ghost use Rattle.plant_answers_genealogy.specs.{after_lot, after_row};
ghost use Rattle.plant_answers.specs.Stock.{aged_at, aged_if, birth_of, is_aged_after, lot_of};
ghost use Rattle.plant_answers.specs.Stock.{each_once, lots_in_stock, number_born, stock_page, stocked};
ghost use Rattle.plant_answers.specs.StockOrder.{stock_order, stock_partial, stock_ties, stock_total};

use plant_answers_genealogy::{KnownLots, RowOf, each_row, known_row, standing_lot};
use plant_base::{Id, Items, Lot, Movement, Sublot};
use plant_questions::{Cursor, Page, StockedLot, Worklists, first_page};
use plant_view::{View, ViewFault};
use std::alloc::{AllocError, Global};
use std::cmp::Ordering;
use std::collections::BTreeSet;

/// A lot, and its age: the number of the command that booked what made it.
#[derive(Clone, Copy, PartialEq, Eq)]
pub(crate) struct AgedLot {
    pub(crate) born: u64,
    pub(crate) lot: Lot,
}

impl Ord for AgedLot {
    ghost cmp = { stock_order };

    ghost total = { stock_total };

    ghost matches_partial_cmp = { λ x y. refl };

    ghost matches_eq = { stock_ties };

    fn cmp(&self, other: &AgedLot) -> Ordering {
        let ids = self.lot.id.cmp(&other.lot.id);
        let ages = self.born.cmp(&other.born);
        ages.then(ids.then(self.lot.def.cmp(&other.lot.def)))
    }
}

impl PartialOrd for AgedLot {
    ghost partial_cmp = { λ x y. Some (stock_order x y) };

    ghost laws = { stock_partial };

    fn partial_cmp(&self, other: &AgedLot) -> Option<Ordering> {
        Some(self.cmp(other))
    }
}

/// A lot that is asked for, where it is of a definition.
#[derive(Clone, Copy)]
pub(crate) struct LotOf {
    pub(crate) lot: Id,
    pub(crate) def: Id,
}

/// A page of the lots of a definition that have stock, the oldest first: what comes after the cursor.
pub(crate) fn stock_page<V: Worklists>(
    alloc: Global,
    view: &mut V,
    def: Id,
    cursor: Option<Cursor<u64, Id>>,
) -> Result<Page<StockedLot>, ViewFault<V::Fault>>
    ensures { ReadOnly V.Edges view.old view.new
        (DecisionInvariant (V.state view.old)
        → IfOk result (λ page. page ≡ stock_page (V.state view.old) def cursor)) }
{
    let aged = lots_in_stock(alloc, view, def, cursor)?;
    let rows = each_row(alloc, view, aged.rows.as_slice())?;
    Ok(Page {
        rows: Items::new(rows),
        has_more: aged.has_more,
    })
}

// The page with the age of each lot.
#[tactic(auto, unfolding(crate::specs::Stock::lots_in_stock))]
fn lots_in_stock<V: Worklists>(
    alloc: Global,
    view: &mut V,
    def: Id,
    cursor: Option<Cursor<u64, Id>>,
) -> Result<Page<AgedLot>, ViewFault<V::Fault>>
    ensures { ReadOnly V.Edges view.old view.new
        (DecisionInvariant (V.state view.old)
        → IfOk result (λ page. page ≡ page_of (filter (is_aged_after cursor) (lots_in_stock (V.state view.old) def)))) }
{
    let aged = aged_lots(alloc, view, def)?;
    match page_behind(alloc, aged.as_slice(), cursor) {
        Ok(page) => Ok(page),
        Err(_) => Err(ViewFault::Memory),
    }
}

// The lots of the definition of which a sublot has stock, each once for each of them.
fn aged_lots<V: Worklists>(
    alloc: Global,
    view: &mut V,
    def: Id,
) -> Result<Vec<AgedLot>, ViewFault<V::Fault>>
    ensures { ReadOnly V.Edges view.old view.new
        (DecisionInvariant (V.state view.old)
        → IfOk result (λ v. v.items ≡ filter_map (aged_at (V.state view.old))
        (map (lot_of def) (sublots_in_stock (V.state view.old))))) }
{
    let sublots = view.sublots_in_stock().map_err(ViewFault::View)?;
    let asked = lots_of(alloc, sublots.as_slice(), def).map_err(|_| ViewFault::Memory)?;
    each_row(alloc, view, asked.as_slice())
}

fn lots_of(alloc: Global, sublots: &[Sublot], def: Id) -> Result<Vec<LotOf>, AllocError>
    ensures { IfOk result (λ v. v.items ≡ map (lot_of def) sublots.now) }
{
    sublots.iter().map(|it| lot_of(it, def)).collect(alloc)
}

fn lot_of(sublot: &Sublot, def: Id) -> LotOf
    ensures { result ≡ lot_of def sublot.now }
{
    LotOf {
        lot: sublot.lot,
        def,
    }
}

impl RowOf<AgedLot> for LotOf {
    ghost reported = { aged_at };

    ghost known_after = { λ s known it. after_row s it.lot known };

    fn row_of<V: Worklists>(
        &self,
        alloc: Global,
        view: &mut V,
        known: &mut KnownLots,
    ) -> Result<Option<AgedLot>, ViewFault<V::Fault>> {
        let lot = known_row(view, known, &self.lot)?;
        aged_if(view, self.def, lot)
    }
}

// The lot with its age, where it is there and of the definition.
fn aged_if<V: Worklists>(
    view: &mut V,
    def: Id,
    lot: Option<Lot>,
) -> Result<Option<AgedLot>, ViewFault<V::Fault>>
    ensures { ReadOnly V.Edges view.old view.new
        (IfOk result (λ found. found ≡ aged_if (V.state view.old) def lot)) }
{
    let Some(lot) = lot else {
        return Ok(None);
    };
    if lot.def != def {
        return Ok(None);
    }
    let born = number_born(birth_of(view, lot.id)?);
    Ok(Some(AgedLot { born, lot }))
}

/// The movement that made a lot, the first of its ledger, if there is one.
fn birth_of<V: Worklists>(view: &mut V, lot: Id) -> Result<Option<Movement>, ViewFault<V::Fault>>
    ensures { ReadOnly V.Edges view.old view.new
        (IfOk result (λ found. found ≡ birth_of (V.state view.old) lot)) }
{
    let ledger = view.ledger_of(lot, None).map_err(ViewFault::View)?;
    Ok(first_of(ledger.rows.as_slice()))
}

fn first_of(movements: &[Movement]) -> Option<Movement>
    ensures { result ≡ slice_get movements.now 0 }
{
    movements.first().copied()
}

fn number_born(birth: Option<Movement>) -> u64
    ensures { result ≡ number_born birth }
{
    match birth {
        Some(movement) => movement.seq,
        None => 0,
    }
}

// ---- by age

// The page of these lots by their age, each once: what comes after the cursor.
fn page_behind(
    alloc: Global,
    lots: &[AgedLot],
    cursor: Option<Cursor<u64, Id>>,
) -> Result<Page<AgedLot>, AllocError>
    ensures { IfOk result (λ page. page
        ≡ page_of (filter (is_aged_after cursor) (each_once stock_order lots.now))) }
{
    let sorted = set_of(alloc, lots)?;
    Ok(first_page(those_after(alloc, &sorted, cursor)?))
}

/// These in their order, each once. The only error is that memory was refused.
pub(crate) fn set_of<T: Ord + Copy + Drop>(
    alloc: Global,
    items: &[T],
) -> Result<BTreeSet<T>, AllocError>
    ensures { IfOk result (λ set. set.keys ≡ each_once T.cmp items.now) }
{
    let mut set = BTreeSet::new(alloc);
    for item in items {
        set.insert(*item)?;
    }
    Ok(set)
}

fn those_after(
    alloc: Global,
    lots: &BTreeSet<AgedLot>,
    cursor: Option<Cursor<u64, Id>>,
) -> Result<Vec<AgedLot>, AllocError>
    ensures { IfOk result (λ v. v.items ≡ filter (is_aged_after cursor) lots.now.keys) }
{
    lots.iter()
        .copied()
        .filter(|lot| is_aged_after(lot, &cursor))
        .collect(alloc)
}

fn is_aged_after(aged: &AgedLot, cursor: &Option<Cursor<u64, Id>>) -> bool
    ensures { result ≡ is_aged_after cursor.now aged.now }
{
    let Some(place) = cursor else {
        return true;
    };
    let by_number = aged.born.cmp(&place.first);
    by_number.then(aged.lot.id.cmp(&place.second)).is_gt()
}

// ---- what is told of each

impl RowOf<StockedLot> for AgedLot {
    ghost reported = { λ s a. Some (stocked s a) };

    ghost known_after = { λ s known a. after_lot s a.lot known };

    fn row_of<V: Worklists>(
        &self,
        alloc: Global,
        view: &mut V,
        known: &mut KnownLots,
    ) -> Result<Option<StockedLot>, ViewFault<V::Fault>> {
        let standing = standing_lot(alloc, view, known, &self.lot)?;
        let born = birth_of(view, self.lot.id)?;
        Ok(Some(StockedLot { standing, born }))
    }
}
