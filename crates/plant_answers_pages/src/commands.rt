// What is answered of commands, from their receipts.
ghost use Rattle.std.specs.Prelude.{◌≡◌, IfOk, map};
ghost use Rattle.plant_base.specs.{is_text, only};
ghost use Rattle.plant_trace.specs.ReadOnly.{ReadOnly};
ghost use Rattle.plant_questions.specs.{page_of, receipts_by_number};
ghost use Rattle.plant_answers_pages.specs.CommandHeads.{behind, head_of, is_padded};
ghost use Rattle.plant_answers_pages.specs.CommandHeads.{line_in, moment_in, word_in};
ghost use Rattle.plant_answers_pages.specs.CommandHeads.{booked_command, command_page};

use crate::command_words::has_command;
use plant_base::{Items, Moment, Receipt, Text, read_digits};
use plant_questions::{BookedCommand, CommandHead, Page, Worklists};
use plant_view::ViewFault;
use std::alloc::{AllocError, Global};

/// A page of the commands that had references, by their numbers.
pub fn command_page<V: Worklists>(
    alloc: Global,
    view: &mut V,
    cursor: Option<u64>,
) -> Result<Page<BookedCommand>, ViewFault<V::Fault>>
    ensures { ReadOnly V.Edges view.old view.new
        (IfOk result (λ page. page ≡ command_page (page_of (receipts_by_number (V.state view.old) cursor)))) }
{
    let page = view.receipts_after(cursor).map_err(ViewFault::View)?;
    let rows = booked_commands(alloc, page.rows.as_slice()).map_err(|_| ViewFault::Memory)?;
    Ok(Page {
        rows: Items::new(rows),
        has_more: page.has_more,
    })
}

fn booked_commands(alloc: Global, receipts: &[Receipt]) -> Result<Vec<BookedCommand>, AllocError>
    ensures { IfOk result (λ v. v.items ≡ map booked_command receipts.now) }
{
    receipts
        .iter()
        .map(|receipt| booked_command(receipt))
        .collect(alloc)
}

pub(crate) fn booked_command(receipt: &Receipt) -> BookedCommand
    ensures { result ≡ booked_command receipt.now }
{
    BookedCommand {
        seq: receipt.seq,
        reference: receipt.reference,
        head: head_of(receipt.content.as_str()),
    }
}

// ---- what a content begins with

fn head_of(content: &str) -> Option<CommandHead>
    ensures { result ≡ head_of content.now }
{
    let (at, more) = cut(content);
    let (by, more) = cut(more);
    let (note, more) = cut(more);
    let (word, _) = cut(more);
    Some(CommandHead {
        at: moment_in(at)?,
        by: text_in(by)?,
        note: text_in(note)?,
        word: word_in(word)?,
    })
}

/// What comes after the first line of a text.
pub(crate) fn behind(text: &str) -> &str
    ensures { result.now ≡ behind text.now }
{
    cut(text).1
}

// The first line of a text, and what comes after it.
fn cut(text: &str) -> (&str, &str)
    ensures first { result.0.now ≡ line_in text.now }
    ensures more { result.1.now ≡ behind text.now }
{
    match text.split_once('\n') {
        Some((first, more)) => (first, more),
        None => (text, ""),
    }
}

fn moment_in(text: &str) -> Option<Moment>
    ensures { result ≡ moment_in text.now }
{
    let digits = text.as_bytes();
    if is_padded(digits) {
        return None;
    }
    Moment::new(read_digits(digits, 12)?)
}

// Whether a zero comes before other digits.
fn is_padded(digits: &[u8]) -> bool
    ensures { result ≡ is_padded digits.now }
{
    match digits {
        [first, _, ..] => *first == b'0',
        _ => false,
    }
}

pub(crate) fn text_in(text: &str) -> Option<Text>
    ensures { result ≡ only is_text text.now }
{
    Text::read(text.as_bytes())
}

fn word_in(text: &str) -> Option<Text>
    ensures { result ≡ word_in text.now }
{
    if has_command(text) {
        text_in(text)
    } else {
        None
    }
}
