//! Rows of the receipts of commands.

ghost use Rattle.std.specs.Prelude.{◌≡◌, IfOk, option_map};
ghost use Rattle.std.specs.Bool.{OnTrue};
ghost use Rattle.std.specs.Char.{is_ascii};
ghost use Rattle.std.specs.List.{list_all};
ghost use Rattle.std.specs.Str.{IsAscii};
ghost use Rattle.sqlite.specs.Order.{column};
ghost use Rattle.sqlite.specs.Values.{bound};
ghost use Rattle.sqlite_value.specs.Value.{owned};
ghost use Rattle.plant_tables_columns.specs.DecodedRows.{all_from};
ghost use Rattle.plant_tables_columns.specs.Kinds.{number};
ghost use Rattle.plant_tables_columns.specs.Reading.{content_in, content_from};
ghost use Rattle.plant_tables_columns.specs.TableColumns.{row_of_receipt, receipt_from};

use crate::reading::{bytes, id, number};
use crate::storing;
use plant_base::{Content, GREATEST_SEQ, Receipt};
use sqlite::Row;
use sqlite_value::value::ValueRef;
use std::alloc::{AllocError, Global};
use std::str;

fn is_all_ascii(bytes: &[u8]) -> bool
    ensures value { result ≡ list_all is_ascii bytes.now }
    ensures ascii { OnTrue result (IsAscii bytes.now) }
{
    bytes.iter().all(|byte| byte.is_ascii())
}

/// The bytes as a text where they are ASCII, and else the empty one.
fn ascii_or_empty(bytes: &[u8]) -> &str
    ensures { result.now ≡ content_in bytes.now }
{
    if !is_all_ascii(bytes) {
        return "";
    }
    match str::from_utf8(bytes) {
        Ok(text) => text,
        Err(_) => unreachable!(),
    }
}

/// A content. `None` where there is no text; an error where there is no memory.
#[tactic(auto, unfolding(crate::specs::Reading::content_from))]
fn content(alloc: Global, row: &Row, at: usize) -> Result<Option<Content>, AllocError>
    ensures { IfOk result (λ content. content ≡ content_from (column row.now at)) }
{
    let Some(bytes) = bytes(row, at) else {
        return Ok(None);
    };
    let text = String::from_str(alloc, ascii_or_empty(bytes))?;
    Ok(Some(Content::new(text)))
}

/// A row of `receipt`. The seq is given as a value.
pub fn receipt_values<'a>(row: &'a Receipt, seq: ValueRef<'a>) -> [ValueRef<'a>; 3]
    requires { owned seq ≡ number row.now.seq }
    ensures { bound result ≡ row_of_receipt row.now }
{
    [
        storing::id(&row.reference),
        seq,
        storing::content(&row.content),
    ]
}

/// The receipt that is decoded from a stored row. `None` where the row has another number of columns, or a value breaks its
/// rule; an error where there is no memory.
#[tactic(auto, unfolding(crate::specs::TableColumns::receipt_from))]
fn decode_receipt(alloc: Global, row: &Row) -> Result<Option<Receipt>, AllocError>
    ensures { IfOk result (λ receipt. receipt ≡ receipt_from row.now) }
{
    if row.column_count() != 3 {
        return Ok(None);
    }
    let Some(reference) = id(row, 0) else {
        return Ok(None);
    };
    let Some(seq) = number(row, 1, 0, GREATEST_SEQ) else {
        return Ok(None);
    };
    let Some(content) = content(alloc, row, 2)? else {
        return Ok(None);
    };
    Ok(Some(Receipt {
        reference,
        seq,
        content,
    }))
}

/// The receipts that are decoded from all stored rows, in their order. `None` where one can't be: where it has another
/// number of columns, or its reference or its number breaks its rule. Any text is read as a content: the rule on
/// receipts finds those that are none. An error where there is no memory.
pub fn decode_receipts(alloc: Global, stored: &[Row]) -> Result<Option<Vec<Receipt>>, AllocError>
    ensures { IfOk result (λ rows. option_map (λ list. list.items) rows
        ≡ all_from receipt_from stored.now) }
{
    let mut rows = Vec::with_capacity(alloc, stored.len())?;
    for row in stored {
        let Some(row) = decode_receipt(alloc, row)? else {
            return Ok(None);
        };
        rows.push(row)?;
    }
    Ok(Some(rows))
}
