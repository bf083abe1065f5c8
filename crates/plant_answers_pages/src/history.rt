// What is answered of the history of an id: the commands that had references and name it.
ghost use Rattle.std.specs.Prelude.{◌≡◌, ◌-◌, IfOk, filter, length, map, option_map, slice_get};
ghost use Rattle.plant_trace.specs.ReadOnly.{ReadOnly};
ghost use Rattle.plant_questions.specs.{page_of, receipts_by_number};
ghost use Rattle.plant_answers_pages.specs.History.{history_page, named_command, names, said_in};
ghost use Rattle.plant_answers_pages.specs.History.{texts_in};

use crate::commands::{behind, booked_command, text_in};
use plant_base::{Id, Items, Receipt, Text};
use plant_questions::{HistoryPage, NamedCommand, Worklists};
use plant_view::ViewFault;
use std::alloc::{AllocError, Global};

/// Those of a page of the commands that had references which name an id.
pub fn history_page<V: Worklists>(
    alloc: Global,
    view: &mut V,
    id: Id,
    cursor: Option<u64>,
) -> Result<HistoryPage, ViewFault<V::Fault>>
    ensures { ReadOnly V.Edges view.old view.new
        (IfOk result (λ page. page ≡ history_page id (page_of (receipts_by_number (V.state view.old) cursor)))) }
{
    let page = view.receipts_after(cursor).map_err(ViewFault::View)?;
    let receipts = page.rows.as_slice();
    let commands = commands_naming(alloc, id, receipts).map_err(|_| ViewFault::Memory)?;
    Ok(HistoryPage {
        commands: Items::new(commands),
        last: last_of(receipts),
        has_more: page.has_more,
    })
}

fn last_of(receipts: &[Receipt]) -> Option<u64>
    ensures { result ≡ option_map (λ r. r.seq) (slice_get receipts.now (length receipts.now - 1)) }
{
    match receipts.last() {
        Some(receipt) => Some(receipt.seq),
        None => None,
    }
}

// The commands that name the id.
fn commands_naming(
    alloc: Global,
    id: Id,
    receipts: &[Receipt],
) -> Result<Vec<NamedCommand>, AllocError>
    ensures { IfOk result (λ v. v.items ≡ map named_command (filter (λ r. names id r.content) receipts.now)) }
{
    let mut named = Vec::new(alloc);
    for receipt in receipts {
        if names(id, receipt.content.as_str()) {
            named.push(named_command(alloc, receipt)?)?;
        }
    }
    Ok(named)
}

fn named_command(alloc: Global, receipt: &Receipt) -> Result<NamedCommand, AllocError>
    ensures { IfOk result (λ command. command ≡ named_command receipt.now) }
{
    let fields = texts_in(alloc, receipt.content.as_str())?;
    Ok(NamedCommand {
        command: booked_command(receipt),
        fields: Items::new(fields),
    })
}

// What a content has behind its moment, operator, note and word.
fn said_in(content: &str) -> &str
    ensures { result.now ≡ said_in content.now }
{
    behind(behind(behind(behind(content))))
}

// Whether one of the fields is the id.
fn names(id: Id, content: &str) -> bool
    ensures { result ≡ names id content.now }
{
    said_in(content)
        .lines()
        .any(|field| id.as_bytes() == field.as_bytes())
}

// The fields, as texts.
fn texts_in(alloc: Global, content: &str) -> Result<Vec<Text>, AllocError>
    ensures { IfOk result (λ texts. texts.items ≡ texts_in content.now) }
{
    said_in(content)
        .lines()
        .filter_map(|field| text_in(field))
        .collect(alloc)
}
