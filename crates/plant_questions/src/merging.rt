//! Two pages of rows in the order of their keys as one.
ghost use Rattle.std.specs.Prelude.{◌≡◌, ◌∷◌, [], ◌+◌, ◌<◌, ◌||◌, true, List, length, IfOk, IfSome};
ghost use Rattle.std.specs.Prelude.{IfNone};
ghost use Rattle.std.specs.Set.{sorted_merge};
ghost use Rattle.plant_questions.specs.Pages.{page_of};

use crate::key_order::HasKeyOrder;
use crate::page::{Page, first_page};
use std::alloc::{AllocError, Global};
use std::cmp::Ordering;

/// The first page of two lists as one, each key once, from the first page of each.
/// The only error is that memory was refused.
pub fn merge_pages<R: HasKeyOrder + Copy + Drop>(
    alloc: Global,
    first: &Page<R>,
    second: &Page<R>,
) -> Result<Page<R>, AllocError>
    ensures { (xs ys : List R) → first.now ≡ page_of xs → second.now ≡ page_of ys
        → IfOk result (λ page. page ≡ page_of (sorted_merge R.order true xs ys)) }
{
    let rows = merged_rows(alloc, first.rows.as_slice(), second.rows.as_slice())?;
    let page = first_page(rows);
    Ok(Page {
        rows: page.rows,
        has_more: is_any(first.has_more, second.has_more, page.has_more),
    })
}

/// Whether one of these holds.
fn is_any(first: bool, second: bool, third: bool) -> bool
    ensures { result ≡ (first || (second || third)) }
{
    first || second || third
}

/// The rows of two lists in order as one list in order, each key once.
fn merged_rows<R: HasKeyOrder + Copy>(
    alloc: Global,
    first: &[R],
    second: &[R],
) -> Result<Vec<R>, AllocError>
    ensures { IfOk result (λ rows. rows.items ≡ sorted_merge R.order true first.now second.now) }
{
    let mut rows = Vec::new(alloc);
    let mut first_left = first;
    let mut second_left = second;
    while let Some((row, more, others)) = take_first(first_left, second_left) {
        rows.push(*row)?;
        first_left = more;
        second_left = others;
    }
    Ok(rows)
}

/// The first row of two lists in order, and what is left of both after it.
#[tactic(auto, using(crate::proofs::MergedLists::first_alone))]
fn take_first<'r, R: HasKeyOrder>(
    first: &'r [R],
    second: &'r [R],
) -> Option<(&'r R, &'r [R], &'r [R])>
    ensures none { IfNone result (sorted_merge R.order true first.now second.now ≡ []) }
    ensures some { IfSome result (λ taken. sorted_merge R.order true first.now second.now
        ≡ taken.0.now ∷ sorted_merge R.order true taken.1.now taken.2.now) }
    ensures less { IfSome result (λ taken. length taken.1.now + length taken.2.now
        < length first.now + length second.now) }
{
    let Some((x, xs)) = first.split_first() else {
        let (y, ys) = second.split_first()?;
        return Some((y, first, ys));
    };
    match second.split_first() {
        None => Some((x, xs, second)),
        Some((y, ys)) => match x.compare(y) {
            Ordering::Less => Some((x, xs, second)),
            Ordering::Equal => Some((x, xs, ys)),
            Ordering::Greater => Some((y, first, ys)),
        },
    }
}
