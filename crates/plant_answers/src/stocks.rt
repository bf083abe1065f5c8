// What is answered of the definitions of a class: what there is of each.
ghost use Rattle.std.specs.Prelude.{◌≡◌, ◌&&◌, ◌≤◌, ◌<◌, ◌^◌, IfOk, filter, length, map, sum_by};
ghost use Rattle.plant_trace.specs.ReadOnly.{ReadOnly};
ghost use Rattle.plant_trace.specs.{node_cmp};
ghost use Rattle.plant_trace.specs.declared.node.Node.TheVariants as node;
ghost use Rattle.plant_view.specs.DecisionInvariant.{DecisionInvariant};
ghost use Rattle.plant_questions.specs.{sublots_in_stock};
ghost use Rattle.plant_answers.specs.Stock.{all_in_stock, counted_in, each_once, is_counted};
ghost use Rattle.plant_answers.specs.Stock.{is_lot_of, stock_of, stocks_page, total_in};

use crate::stock::set_of;
use plant_answers_genealogy::{each_row, in_64_bits};
use plant_base::{Definition, Id, Items, Sublot};
use plant_questions::{DefinitionStock, Page, StandingLot, Worklists};
use plant_trace::Node;
use plant_view::ViewFault;
use std::alloc::{AllocError, Global};

/// What the amount of a lot counts for.
#[derive(Clone, Copy)]
pub(crate) enum Part {
    /// What may be used: of lots that are neither held nor recalled.
    Usable,
    /// Of lots that are held.
    Held,
    /// Of lots that open recalls reach.
    Recalled,
}

/// A page of the definitions of a class, with what there is of each.
pub(crate) fn stocks_page<V: Worklists>(
    alloc: Global,
    view: &mut V,
    class: Id,
    cursor: Option<Id>,
) -> Result<Page<DefinitionStock>, ViewFault<V::Fault>>
    ensures { ReadOnly V.Edges view.old view.new
        (DecisionInvariant (V.state view.old)
        → IfOk result (λ page. page ≡ stocks_page (V.state view.old) class cursor)) }
{
    let page = view.definitions_in(class, cursor).map_err(ViewFault::View)?;
    let lots = all_in_stock(alloc, view)?;
    match stocks_of(alloc, page.rows.as_slice(), lots.as_slice()) {
        Ok(rows) => Ok(Page {
            rows: Items::new(rows),
            has_more: page.has_more,
        }),
        Err(_) => Err(ViewFault::Memory),
    }
}

/// All lots that have stock, by their ids.
pub(crate) fn all_in_stock<V: Worklists>(
    alloc: Global,
    view: &mut V,
) -> Result<Vec<StandingLot>, ViewFault<V::Fault>>
    ensures { ReadOnly V.Edges view.old view.new
        (DecisionInvariant (V.state view.old)
        → IfOk result (λ v. v.items ≡ all_in_stock (V.state view.old))) }
{
    let lots = lots_in_stock(alloc, view)?;
    each_row(alloc, view, lots.as_slice())
}

// The lots of the sublots that have stock.
fn lots_in_stock<V: Worklists>(
    alloc: Global,
    view: &mut V,
) -> Result<Vec<Node>, ViewFault<V::Fault>>
    ensures { ReadOnly V.Edges view.old view.new
        (DecisionInvariant (V.state view.old)
        → IfOk result (λ v. v.items ≡ each_once node_cmp (map (λ r. node.Lot r.lot) (sublots_in_stock (V.state view.old))))) }
{
    let sublots = view.sublots_in_stock().map_err(ViewFault::View)?;
    match lots_of(alloc, sublots.as_slice()) {
        Ok(lots) => Ok(lots),
        Err(_) => Err(ViewFault::Memory),
    }
}

// The lots of sublots, by their ids, each once.
fn lots_of(alloc: Global, sublots: &[Sublot]) -> Result<Vec<Node>, AllocError>
    ensures { IfOk result (λ v. v.items ≡ each_once node_cmp (map (λ r. node.Lot r.lot) sublots.now)) }
{
    let nodes = nodes_of(alloc, sublots)?;
    let set = set_of(alloc, nodes.as_slice())?;
    set.iter().copied().collect(alloc)
}

fn nodes_of(alloc: Global, sublots: &[Sublot]) -> Result<Vec<Node>, AllocError>
    ensures { IfOk result (λ v. v.items ≡ map (λ r. node.Lot r.lot) sublots.now) }
{
    sublots
        .iter()
        .map(|sublot| Node::Lot(sublot.lot))
        .collect(alloc)
}

// ---- what there is of each

fn stocks_of(
    alloc: Global,
    definitions: &[Definition],
    lots: &[StandingLot],
) -> Result<Vec<DefinitionStock>, AllocError>
    ensures { IfOk result (λ v. v.items ≡ map (stock_of lots.now) definitions.now) }
{
    definitions
        .iter()
        .map(|definition| stock_of(*definition, lots))
        .collect(alloc)
}

fn stock_of(definition: Definition, lots: &[StandingLot]) -> DefinitionStock
    ensures { result ≡ stock_of lots.now definition }
{
    let def = definition.id;
    let usable = total_in(lots, Part::Usable, def);
    let held = total_in(lots, Part::Held, def);
    let recalled = total_in(lots, Part::Recalled, def);
    DefinitionStock {
        definition,
        lots: count_of(def, lots),
        usable,
        held,
        recalled,
    }
}

fn count_of(def: Id, lots: &[StandingLot]) -> usize
    ensures { result ≡ length (filter (is_lot_of def) lots.now) }
{
    lots.iter().filter(|lot| is_lot_of(def, lot)).count()
}

fn is_lot_of(def: Id, lot: &StandingLot) -> bool
    ensures { result ≡ is_lot_of def lot.now }
{
    lot.known.def == def
}

fn is_counted(part: Part, lot: &StandingLot) -> bool
    ensures { result ≡ is_counted part lot.now }
{
    match part {
        Part::Usable => !(lot.known.held || lot.recalled),
        Part::Held => lot.known.held,
        Part::Recalled => lot.recalled,
    }
}

fn counted_in(part: Part, def: Id, lot: &StandingLot) -> u64
    ensures { result ≡ counted_in part def lot.now }
{
    if is_lot_of(def, lot) && is_counted(part, lot) {
        lot.known.stock
    } else {
        0
    }
}

/// The sum of what the lots of the definition are counted with, as far as it fits.
pub(crate) fn total_in(lots: &[StandingLot], part: Part, def: Id) -> u64
    ensures { result ≡ total_in lots.now part def }
{
    let mut total: u128 = 0;
    for lot in lots {
        total += u128::from(counted_in(part, def, lot));
    }
    in_64_bits(total)
}
