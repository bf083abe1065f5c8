// What is answered of a list.
ghost use Rattle.std.specs.Prelude.{◌≡◌, IfOk};
ghost use Rattle.plant_trace.specs.ReadOnly.{ReadOnly};
ghost use Rattle.plant_view.specs.DecisionInvariant.{DecisionInvariant};
ghost use Rattle.plant_answers.specs.ListAnswers.{answer_list, listed_of, unknown_of, unless_there};

use crate::stock::stock_page;
use crate::stocks::stocks_page;
use plant_answers_genealogy::lot_page;
use plant_answers_pages::{batch_page, command_page, history_page};
use plant_base::Refusal;
use plant_questions::{Answer, ListQuestion, Listed, Worklists, all_holds};
use plant_view::{View, ViewFault, lookup};
use std::alloc::Global;

/// The page that is asked for, or the refusal where what the list is of isn't there.
pub(crate) fn list_answer<V: Worklists>(
    alloc: Global,
    view: &mut V,
    list: ListQuestion,
) -> Result<Answer, ViewFault<V::Fault>>
    ensures { ReadOnly V.Edges view.old view.new
        (DecisionInvariant (V.state view.old)
        → IfOk result (λ a. a ≡ answer_list (V.state view.old) list)) }
{
    match unknown_of(view, list)? {
        Some(refusal) => Ok(Answer::Unknown(refusal)),
        None => Ok(Answer::List(listed_of(alloc, view, list)?)),
    }
}

/// The refusal where what the list is of isn't there.
fn unknown_of<V: View>(
    view: &mut V,
    list: ListQuestion,
) -> Result<Option<Refusal>, ViewFault<V::Fault>>
    ensures { ReadOnly V.Edges view.old view.new
        (IfOk result (λ refusal. refusal ≡ unknown_of (V.state view.old) list)) }
{
    match list {
        ListQuestion::Lots(def, _) | ListQuestion::Stock(def, _) => {
            let known = lookup::definition(view, def)?;
            Ok(unless_there(known, Refusal::UnknownDefinition))
        }
        ListQuestion::Holds(lot, _) | ListQuestion::Movements(lot, _) => {
            let known = lookup::lot(view, lot)?;
            Ok(unless_there(known, Refusal::UnknownLot))
        }
        ListQuestion::Definitions(class, _) | ListQuestion::Stocks(class, _) => {
            let known = lookup::class(view, class)?;
            Ok(unless_there(known, Refusal::UnknownClass))
        }
        _ => Ok(None),
    }
}

/// The refusal where this isn't there.
fn unless_there<T: Copy>(known: Option<T>, refusal: Refusal) -> Option<Refusal>
    ensures { result ≡ unless_there known refusal }
{
    match known {
        Some(_) => None,
        None => Some(refusal),
    }
}

/// The page of the list: what comes after the cursor, or the beginning where none is given.
fn listed_of<V: Worklists>(
    alloc: Global,
    view: &mut V,
    list: ListQuestion,
) -> Result<Listed, ViewFault<V::Fault>>
    ensures { ReadOnly V.Edges view.old view.new
        (DecisionInvariant (V.state view.old)
        → IfOk result (λ rows. rows ≡ listed_of (V.state view.old) list)) }
{
    match list {
        ListQuestion::Orders(state, cursor) => {
            Ok(Listed::Orders(view.orders_in(state, cursor).map_err(ViewFault::View)?))
        }
        ListQuestion::OrdersByDue(state, cursor) => {
            Ok(Listed::Orders(view.orders_by_due(state, cursor).map_err(ViewFault::View)?))
        }
        ListQuestion::Batches(cursor) => {
            Ok(Listed::Batches(batch_page(alloc, view, false, cursor)?))
        }
        ListQuestion::ClosedBatches(cursor) => {
            Ok(Listed::Batches(batch_page(alloc, view, true, cursor)?))
        }
        ListQuestion::Lots(def, cursor) => Ok(Listed::Lots(lot_page(alloc, view, def, cursor)?)),
        ListQuestion::Holds(lot, cursor) => {
            Ok(Listed::Holds(view.holds_on(lot, cursor).map_err(ViewFault::View)?))
        }
        ListQuestion::AllHolds(cursor) => Ok(Listed::AllHolds(all_holds(alloc, view, cursor)?)),
        ListQuestion::Recalls(cursor) => {
            Ok(Listed::Recalls(view.recalls_in(true, cursor).map_err(ViewFault::View)?))
        }
        ListQuestion::LiftedRecalls(cursor) => {
            Ok(Listed::LiftedRecalls(view.recalls_in(false, cursor).map_err(ViewFault::View)?))
        }
        ListQuestion::Classes(cursor) => {
            Ok(Listed::Classes(view.classes_after(cursor).map_err(ViewFault::View)?))
        }
        ListQuestion::Definitions(class, cursor) => {
            Ok(Listed::Definitions(view.definitions_in(class, cursor).map_err(ViewFault::View)?))
        }
        ListQuestion::Recipes(state, cursor) => {
            Ok(Listed::Recipes(view.recipes_in(state, cursor).map_err(ViewFault::View)?))
        }
        ListQuestion::Movements(lot, cursor) => {
            Ok(Listed::Ledger(view.ledger_of(lot, cursor).map_err(ViewFault::View)?))
        }
        ListQuestion::Commands(cursor) => Ok(Listed::Commands(command_page(alloc, view, cursor)?)),
        ListQuestion::History(id, cursor) => {
            Ok(Listed::History(history_page(alloc, view, id, cursor)?))
        }
        ListQuestion::Stock(def, cursor) => {
            Ok(Listed::Stock(stock_page(alloc, view, def, cursor)?))
        }
        ListQuestion::Stocks(class, cursor) => {
            Ok(Listed::Stocks(stocks_page(alloc, view, class, cursor)?))
        }
    }
}
