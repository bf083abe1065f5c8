// What entered the lots around a lot or batch, what left them, and what is there.
ghost use Rattle.std.specs.Prelude.{◌≡◌, ◌≤◌, ◌<◌, ◌^◌, ◌*◌, IfOk, option_map, sum_by};
ghost use Rattle.plant_base.specs.{State, definition_at};
ghost use Rattle.plant_stock.specs.{is_in_lot};
ghost use Rattle.plant_trace.specs.ReadOnly.{ReadOnly};
ghost use Rattle.plant_view.specs.DecisionInvariant.{DecisionInvariant};
ghost use Rattle.plant_questions.specs.{movements_into, movements_of_lot};
ghost use Rattle.plant_answers_genealogy.specs.Balances.{answer_balance, balance_at, balance_if};
ghost use Rattle.plant_answers_genealogy.specs.Balances.{balances_around, enters, flows_of, is_flow};
ghost use Rattle.plant_answers_genealogy.specs.Balances.{lot_balance, moved, side_of, in_64_bits};
ghost use Rattle.plant_answers_genealogy.specs.KnownLots.{AreKnown, after_definition, after_lot, after_node};
ghost use Rattle.plant_answers_genealogy.specs.KnownLots.{after_node_if};
ghost use Rattle.plant_answers_genealogy.specs.Traces.{missing};

use crate::around::nodes_around;
use crate::each_told::{RowOf, each_row};
use crate::known_lots::{KnownLots, known_definition, known_row, standing_lot};
use crate::traces::missing;
use plant_base::{Definition, Id, Items, Lot, Movement, MovementKind, Unit};
use plant_questions::{Answer, LotBalance, LotFlows, Worklists, movements_into};
use plant_stock::{source, target};
use plant_trace::{Direction, Node};
use plant_view::ViewFault;
use std::alloc::Global;

/// How something enters a lot or leaves it. A division moves it within its lot, and is none.
#[derive(Clone, Copy)]
pub(crate) enum Flow {
    /// It is received as the lot.
    Received,
    /// A batch produces it as the lot.
    Produced,
    /// It is split off another lot as this one.
    SplitIn,
    /// It is merged of other lots as this one.
    MergedIn,
    /// A batch consumes it.
    Consumed,
    /// It is scrapped.
    Scrapped,
    /// It is split off as another lot.
    SplitOut,
    /// It is merged as another lot.
    MergedOut,
}

/// What entered each lot that the start is or leads to, what left it, and what is there.
pub fn balance_answer<V: Worklists>(
    alloc: Global,
    view: &mut V,
    start: Node,
) -> Result<Answer, ViewFault<V::Fault>>
    ensures { ReadOnly V.Edges view.old view.new
        (DecisionInvariant (V.state view.old) → IfOk result (λ a. a ≡ answer_balance (V.state view.old) start
        (missing (V.state view.old) start))) }
{
    if let Some(refusal) = missing(view, start)? {
        return Ok(Answer::Unknown(refusal));
    }
    Ok(Answer::Balance(Items::new(balances_around(alloc, view, start)?)))
}

fn balances_around<V: Worklists>(
    alloc: Global,
    view: &mut V,
    start: Node,
) -> Result<Vec<LotBalance>, ViewFault<V::Fault>>
    ensures { ReadOnly V.Edges view.old view.new
        (DecisionInvariant (V.state view.old)
        → IfOk result (λ v. v.items ≡ balances_around (V.state view.old) start)) }
{
    let nodes = nodes_around(alloc, view, Direction::Forward, start)?;
    each_row(alloc, view, nodes.as_slice())
}

impl RowOf<LotBalance> for Node {
    ghost reported = { balance_at };

    ghost known_after = { after_node };

    fn row_of<V: Worklists>(
        &self,
        alloc: Global,
        view: &mut V,
        known: &mut KnownLots,
    ) -> Result<Option<LotBalance>, ViewFault<V::Fault>> {
        match self {
            Node::Lot(id) => {
                let lot = known_row(view, known, id)?;
                balance_if(alloc, view, known, lot)
            }
            Node::Batch(_) => Ok(None),
        }
    }
}

fn balance_if<V: Worklists>(
    alloc: Global,
    view: &mut V,
    known: &mut KnownLots,
    lot: Option<Lot>,
) -> Result<Option<LotBalance>, ViewFault<V::Fault>>
    ensures { ReadOnly V.Edges view.old view.new
        (DecisionInvariant (V.state view.old) → AreKnown (V.state view.old) known.old
        → IfOk result (λ found. found ≡ balance_if (V.state view.old) lot)
        × AreKnown (V.state view.old) known.new
        × IfOk result (λ _. known.new ≡ after_node_if (V.state view.old) known.old lot)) }
{
    let Some(lot) = lot else {
        return Ok(None);
    };
    Ok(Some(lot_balance(alloc, view, known, &lot)?))
}

// Of a lot that is there.
fn lot_balance<V: Worklists>(
    alloc: Global,
    view: &mut V,
    known: &mut KnownLots,
    lot: &Lot,
) -> Result<LotBalance, ViewFault<V::Fault>>
    ensures { ReadOnly V.Edges view.old view.new
        (DecisionInvariant (V.state view.old) → AreKnown (V.state view.old) known.old
        → IfOk result (λ b. b ≡ lot_balance (V.state view.old) lot.now)
        × AreKnown (V.state view.old) known.new
        × IfOk result (λ _. known.new ≡ after_lot (V.state view.old) lot.now
        (after_definition (V.state view.old) lot.now.def known.old))) }
{
    let definition = known_definition(view, known, lot.def)?;
    let standing = standing_lot(alloc, view, known, lot)?;
    let flows = lot_flows(view, lot.id)?;
    Ok(LotBalance {
        standing,
        unit: unit_of(definition),
        flows,
    })
}

fn unit_of(definition: Option<Definition>) -> Option<Unit>
    ensures { result ≡ option_map (λ d. d.unit) definition }
{
    definition.map(|d| d.unit)
}

// ---- what entered a lot and what left it

// By the movements of the lot itself, and by those that bring something to it from another.
fn lot_flows<V: Worklists>(view: &mut V, lot: Id) -> Result<LotFlows, ViewFault<V::Fault>>
    ensures { ReadOnly V.Edges view.old view.new
        (DecisionInvariant (V.state view.old)
        → IfOk result (λ flows. flows ≡ flows_of (V.state view.old) lot)) }
{
    let own = movements_of_lot(view, lot)?;
    let into = movements_into(view, lot)?;
    Ok(flows_of(own.as_slice(), into.as_slice(), lot))
}

fn movements_of_lot<V: Worklists>(
    view: &mut V,
    lot: Id,
) -> Result<Vec<Movement>, ViewFault<V::Fault>>
    ensures { ReadOnly V.Edges view.old view.new
        (IfOk result (λ v. v.items ≡ movements_of_lot (V.state view.old) lot)) }
{
    view.movements_of_lot(lot).map_err(ViewFault::View)
}

fn flows_of(own: &[Movement], into: &[Movement], lot: Id) -> LotFlows
    ensures { (s : State) → DecisionInvariant s → own.now ≡ movements_of_lot s lot → into.now ≡ movements_into s lot
        → result ≡ flows_of s lot }
{
    let received = flow_in(own, Flow::Received, lot);
    let produced = flow_in(own, Flow::Produced, lot);
    let split_in = flow_in(into, Flow::SplitIn, lot);
    let merged_in = flow_in(into, Flow::MergedIn, lot);
    let consumed = flow_in(own, Flow::Consumed, lot);
    let scrapped = flow_in(own, Flow::Scrapped, lot);
    let split_out = flow_in(own, Flow::SplitOut, lot);
    let merged_out = flow_in(own, Flow::MergedOut, lot);
    LotFlows {
        received,
        produced,
        split_in,
        merged_in,
        consumed,
        scrapped,
        split_out,
        merged_out,
    }
}

// The sum as far as it fits. That of a lot in a consistent state does; a view that breaks its contract may give more.
fn flow_in(movements: &[Movement], flow: Flow, lot: Id) -> u64
    ensures { result ≡ in_64_bits (sum_by (moved flow lot) movements.now) }
{
    let mut total: u128 = 0;
    for movement in movements {
        total += u128::from(moved(flow, lot, movement));
    }
    in_64_bits(total)
}

fn moved(flow: Flow, lot: Id, movement: &Movement) -> u64
    ensures { result ≡ moved flow lot movement.now }
{
    if is_flow(flow, movement.kind) && is_in_lot(side_of(flow, movement), lot) {
        movement.amount.get()
    } else {
        0
    }
}

fn is_flow(flow: Flow, kind: MovementKind) -> bool
    ensures { result ≡ is_flow flow kind }
{
    match flow {
        Flow::Received => matches!(kind, MovementKind::Received),
        Flow::Produced => matches!(kind, MovementKind::Produced { .. }),
        Flow::SplitIn | Flow::SplitOut => matches!(kind, MovementKind::Split { .. }),
        Flow::MergedIn | Flow::MergedOut => matches!(kind, MovementKind::Merged { .. }),
        Flow::Consumed => matches!(kind, MovementKind::Consumed { .. }),
        Flow::Scrapped => matches!(kind, MovementKind::Scrapped),
    }
}

fn enters(flow: Flow) -> bool
    ensures { result ≡ enters flow }
{
    match flow {
        Flow::Received | Flow::Produced | Flow::SplitIn | Flow::MergedIn => true,
        Flow::Consumed | Flow::Scrapped | Flow::SplitOut | Flow::MergedOut => false,
    }
}

fn side_of(flow: Flow, movement: &Movement) -> Option<(Id, u16)>
    ensures { result ≡ side_of flow movement.now }
{
    if enters(flow) {
        target(movement)
    } else {
        source(movement)
    }
}

fn is_in_lot(place: Option<(Id, u16)>, lot: Id) -> bool
    ensures { result ≡ is_in_lot place lot }
{
    match place {
        None => false,
        Some((its_lot, _)) => its_lot == lot,
    }
}

/// A number, as far as 64 bits hold it.
pub fn in_64_bits(number: u128) -> u64
    ensures { result ≡ in_64_bits number }
{
    u64::try_from(number).unwrap_or(u64::MAX)
}
