//! The values of pages of worklists.
ghost use Rattle.std.specs.Prelude.{◌≡◌, map, IfOk};
ghost use Rattle.serde_json.specs.Data.{array};
ghost use Rattle.serde_json.specs.View.{view, items_of};
ghost use Rattle.plant_text_answers.specs.ListAnswers.{orders_data, batches_data, lots_data};
ghost use Rattle.plant_text_answers.specs.ListAnswers.{holds_data, recalls_data, commands_data};
ghost use Rattle.plant_text_answers.specs.ListAnswers.{classes_data, definitions_data};
ghost use Rattle.plant_text_answers.specs.ListAnswers.{recipes_data, ledger_data, listed_data};
ghost use Rattle.plant_text_answers.specs.ListAnswers.{stock_data, stocks_data};

use crate::command_rows::history_value;
use crate::further_rows::{all_holds_value, lifted_value};
use crate::listed_rows::Shown;
use crate::parts::id_value;
use plant_base::{Class, Definition, Hold, Job, Movement, Recall, Recipe};
use plant_questions::{
    BookedCommand, DefinitionStock, Listed, LotPage, OpenBatch, Page, StockedLot,
};
use serde_json::{Value, json};
use std::alloc::{AllocError, Global};

/// The list of what is shown of rows.
pub(crate) fn rows_value<R: Shown>(alloc: Global, rows: &[R]) -> Result<Value, AllocError>
    ensures { IfOk result (λ v. view v ≡ array (items_of (map R.shows rows.now))) }
{
    let mut list = Vec::new(alloc);
    for row in rows {
        let value = row.value(alloc)?;
        list.push(value)?;
    }
    Ok(Value::Array(list))
}

fn orders_value(alloc: Global, page: &Page<Job>) -> Result<Value, AllocError>
    ensures { IfOk result (λ v. view v ≡ orders_data page.now) }
{
    let rows = rows_value(alloc, page.rows.as_slice())?;
    json!(in alloc; {"more": (page.has_more), "orders": rows})
}

fn batches_value(alloc: Global, page: &Page<OpenBatch>) -> Result<Value, AllocError>
    ensures { IfOk result (λ v. view v ≡ batches_data page.now) }
{
    let rows = rows_value(alloc, page.rows.as_slice())?;
    json!(in alloc; {"batches": rows, "more": (page.has_more)})
}

fn lots_value(alloc: Global, page: &LotPage) -> Result<Value, AllocError>
    ensures { IfOk result (λ v. view v ≡ lots_data page.now) }
{
    let last = id_value(alloc, page.last)?;
    let rows = rows_value(alloc, page.lots.as_slice())?;
    json!(in alloc; {"last": last, "lots": rows, "more": (page.has_more)})
}

fn holds_value(alloc: Global, page: &Page<Hold>) -> Result<Value, AllocError>
    ensures { IfOk result (λ v. view v ≡ holds_data page.now) }
{
    let rows = rows_value(alloc, page.rows.as_slice())?;
    json!(in alloc; {"holds": rows, "more": (page.has_more)})
}

fn recalls_value(alloc: Global, page: &Page<Recall>) -> Result<Value, AllocError>
    ensures { IfOk result (λ v. view v ≡ recalls_data page.now) }
{
    let rows = rows_value(alloc, page.rows.as_slice())?;
    json!(in alloc; {"more": (page.has_more), "recalls": rows})
}

fn commands_value(alloc: Global, page: &Page<BookedCommand>) -> Result<Value, AllocError>
    ensures { IfOk result (λ v. view v ≡ commands_data page.now) }
{
    let rows = rows_value(alloc, page.rows.as_slice())?;
    json!(in alloc; {"commands": rows, "more": (page.has_more)})
}

fn classes_value(alloc: Global, page: &Page<Class>) -> Result<Value, AllocError>
    ensures { IfOk result (λ v. view v ≡ classes_data page.now) }
{
    let rows = rows_value(alloc, page.rows.as_slice())?;
    json!(in alloc; {"classes": rows, "more": (page.has_more)})
}

fn definitions_value(alloc: Global, page: &Page<Definition>) -> Result<Value, AllocError>
    ensures { IfOk result (λ v. view v ≡ definitions_data page.now) }
{
    let rows = rows_value(alloc, page.rows.as_slice())?;
    json!(in alloc; {"definitions": rows, "more": (page.has_more)})
}

fn recipes_value(alloc: Global, page: &Page<Recipe>) -> Result<Value, AllocError>
    ensures { IfOk result (λ v. view v ≡ recipes_data page.now) }
{
    let rows = rows_value(alloc, page.rows.as_slice())?;
    json!(in alloc; {"more": (page.has_more), "recipes": rows})
}

fn ledger_value(alloc: Global, page: &Page<Movement>) -> Result<Value, AllocError>
    ensures { IfOk result (λ v. view v ≡ ledger_data page.now) }
{
    let rows = rows_value(alloc, page.rows.as_slice())?;
    json!(in alloc; {"more": (page.has_more), "movements": rows})
}

fn stock_value(alloc: Global, page: &Page<StockedLot>) -> Result<Value, AllocError>
    ensures { IfOk result (λ v. view v ≡ stock_data page.now) }
{
    let rows = rows_value(alloc, page.rows.as_slice())?;
    json!(in alloc; {"lots": rows, "more": (page.has_more)})
}

fn stocks_value(alloc: Global, page: &Page<DefinitionStock>) -> Result<Value, AllocError>
    ensures { IfOk result (λ v. view v ≡ stocks_data page.now) }
{
    let rows = rows_value(alloc, page.rows.as_slice())?;
    json!(in alloc; {"more": (page.has_more), "stocks": rows})
}

/// What is shown of a page of a worklist.
pub(crate) fn listed_value(alloc: Global, listed: &Listed) -> Result<Value, AllocError>
    ensures { IfOk result (λ v. view v ≡ listed_data listed.now) }
{
    match listed {
        Listed::Orders(page) => orders_value(alloc, page),
        Listed::Batches(page) => batches_value(alloc, page),
        Listed::Lots(page) => lots_value(alloc, page),
        Listed::Holds(page) => holds_value(alloc, page),
        Listed::Recalls(page) => recalls_value(alloc, page),
        Listed::LiftedRecalls(page) => lifted_value(alloc, page),
        Listed::AllHolds(page) => all_holds_value(alloc, page),
        Listed::Commands(page) => commands_value(alloc, page),
        Listed::History(page) => history_value(alloc, page),
        Listed::Classes(page) => classes_value(alloc, page),
        Listed::Definitions(page) => definitions_value(alloc, page),
        Listed::Recipes(page) => recipes_value(alloc, page),
        Listed::Ledger(page) => ledger_value(alloc, page),
        Listed::Stock(page) => stock_value(alloc, page),
        Listed::Stocks(page) => stocks_value(alloc, page),
    }
}
