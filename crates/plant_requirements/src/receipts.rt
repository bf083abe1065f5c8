//! The numbers and the contents of receipts.

ghost use Rattle.std.specs.Prelude.{◌≡◌, ◌==◌, IfOk, filter, length};
ghost use Rattle.std.specs.List.{list_all};
ghost use Rattle.plant_base.specs.{is_content, is_content_byte, is_there};
ghost use Rattle.plant_requirements.specs.Receipts.{receipt_as, receipt_fault, receipt_fault_in};
ghost use Rattle.plant_requirements.specs.Receipts.{seqs_of};

use crate::fault::{Column, Found, RowFault, Wanted};
use crate::first::{first_of, in_column};
use crate::keys::id_key;
use crate::numbering::is_given;
use crate::table_names::Table;
use grouped_rows::{Grouped, Grouping};
use plant_base::Receipt;
use std::alloc::{AllocError, Global};

/// Whether a content is made of what contents are made of: one or more bytes from the space to `~` and LFs.
fn is_content(bytes: &[u8]) -> bool
    ensures { result ≡ is_content bytes.now }
{
    is_there(bytes) && are_content_bytes(bytes)
}

fn are_content_bytes(bytes: &[u8]) -> bool
    ensures { result ≡ list_all is_content_byte bytes.now }
{
    bytes.iter().all(|b| is_content_byte(*b))
}

// Whether there is a byte.
fn is_there(bytes: &[u8]) -> bool
    ensures { result ≡ is_there bytes.now }
{
    match bytes {
        [] => false,
        [_, ..] => true,
    }
}

// Whether it is one from the space to `~`, or an LF.
fn is_content_byte(byte: u8) -> bool
    ensures { result ≡ is_content_byte byte }
{
    (b' '..=b'~').contains(&byte) || byte == b'\n'
}

/// Numbers, each under itself.
#[derive(Clone, Copy)]
struct Numbers;

impl Grouping for Numbers {
    ghost use Rattle.std.specs.Prelude.{Some};

    type Row = u64;

    type Key = u64;

    ghost key_of = { λ n. Some n };

    fn key(row: &u64) -> Option<u64> {
        Some(*row)
    }
}

/// Whether the number is there once.
fn is_once(numbers: &Grouped<Numbers>, number: u64) -> bool
    ensures { result ≡ (length (filter (λ n. n == number) numbers.now.rows.now) == 1) }
{
    numbers.at(number).len() == 1
}

/// The numbers of the receipts. The only error is that memory was refused.
fn seqs_of(alloc: Global, receipts: &[Receipt]) -> Result<Vec<u64>, AllocError>
    ensures { IfOk result (λ list. list.items ≡ seqs_of receipts.now) }
{
    receipts.iter().map(|r| r.seq).collect(alloc)
}

/// The fault of the receipt: this is in a column, where that is wanted.
fn receipt_as(receipt: &Receipt, column: Column, found: Found, wanted: Wanted) -> RowFault
    ensures { result ≡ receipt_as receipt.now column found wanted }
{
    let place = (Table::Receipt, id_key(receipt.reference));
    in_column(place, column, found, wanted)
}

/// What is wrong with a receipt: its number wasn't given, its content is none, or another has its number.
fn receipt_fault(greatest: u64, seqs: &Grouped<Numbers>, receipt: &Receipt) -> Option<RowFault>
    ensures { result ≡ receipt_fault greatest seqs.now.rows.now receipt.now }
{
    let number = Found::Number(receipt.seq);
    if !is_given(greatest, receipt.seq) {
        return Some(receipt_as(receipt, Column::Seq, number, Wanted::Given(greatest)));
    }
    if !is_content(receipt.content.as_str().as_bytes()) {
        return Some(receipt_as(receipt, Column::Content, Found::Row, Wanted::Content));
    }
    if !is_once(seqs, receipt.seq) {
        return Some(receipt_as(receipt, Column::Seq, number, Wanted::OwnNumber));
    }
    None
}

/// The first receipt that breaks its rule, `greatest` being the last number that was given. The only error is that memory was
/// refused.
pub fn receipt_fault_in(
    alloc: Global,
    greatest: u64,
    receipts: &[Receipt],
) -> Result<Option<RowFault>, AllocError>
    ensures { IfOk result (λ reported. reported ≡ receipt_fault_in greatest receipts.now) }
{
    let numbers = seqs_of(alloc, receipts)?;
    let seqs = Grouped::<Numbers>::new(alloc, numbers.as_slice())?;
    Ok(first_of(receipts, |receipt| receipt_fault(greatest, &seqs, receipt)))
}
