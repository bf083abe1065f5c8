//! Rows of lots that are read ahead: where lots are asked for one after another, by their ids, a page of rows answers many.

ghost use Rattle.std.specs.Prelude.{◌≡◌, IfSome, List, is_some};
ghost use Rattle.plant_questions.specs.Prefetching.{IsValidPrefetch, Rise, end_of, is_before};
ghost use Rattle.plant_questions.specs.Prefetching.{is_between, rows_after, rows_of, are_near};
ghost use Rattle.plant_questions.specs.Prefetching.{asked_for, counted, is_answered, unread};
ghost use Rattle.plant_questions.specs.Prefetching.{wants_page, with_page};
ghost use Rattle.plant_questions.specs.Pages.{page_of};

use crate::after_cursor::is_after;
use crate::of_lot::OfLot;
use crate::page::Page;
use crate::policy::PrefetchPolicy;
use crate::runs::run_of;
use plant_base::{Id, Items};
use std::alloc::Global;

/// Rows that were read ahead of the lots that are asked for. A state that is read doesn't change, so they stay true.
#[derive(Drop)]
pub struct ReadAhead<R> {
    /// The rows, in the order of their lots.
    pub rows: Items<R>,
    /// Whether any were read.
    pub is_read: bool,
    /// They are of lots after this one.
    pub after: Option<Id>,
    /// Of each lot before this one they are all its rows; of all lots, where there is none.
    pub before: Option<Id>,
    /// The lot that is asked for.
    pub asked: Option<Id>,
    /// The lot that was asked for before it, after which a page is read.
    pub last: Option<Id>,
    /// Decides when to read a page.
    pub policy: PrefetchPolicy,
}

impl<R: OfLot> ReadAhead<R> {
    /// No rows, since none were read. The first page is read for the first lot, or where something speaks for it. No memory is
    /// taken.
    #[tactic(auto, using(crate::proofs::PrefetchedPage::none_read))]
    pub fn unread(alloc: Global, at_once: bool) -> ReadAhead<R>
        ensures valid { (all : List R) → IsValidPrefetch R.lot_of all result }
        ensures nothing { result ≡ unread at_once }
    {
        ReadAhead {
            rows: Items::new(Vec::new(alloc)),
            is_read: false,
            after: None,
            before: None,
            asked: None,
            last: None,
            policy: PrefetchPolicy::new(at_once),
        }
    }

    /// Whether the lot is between the bounds.
    fn is_within(&self, lot: &Id) -> bool
        ensures { result ≡ is_between self.now.is_read self.now.after self.now.before lot.now }
    {
        self.is_read && is_after(lot, &self.after) && is_before(lot, &self.before)
    }

    /// Whether a page is to be read for a lot. No rows are changed.
    pub(crate) fn wants_page(&mut self, lot: &Id) -> bool
        ensures wanted { result ≡ wants_page lot.now self.old }
        ensures counts { self.new ≡ counted lot.now self.old }
        ensures valid { (all : List R) → IsValidPrefetch R.lot_of all self.old → IsValidPrefetch R.lot_of all self.new }
    {
        if self.is_within(lot) {
            self.policy.record_hit();
            return false;
        }
        let is_near = are_near(lot, &self.last);
        self.policy.should_fetch(is_near, self.is_read)
    }

    /// Notes the lot that is asked for. No rows are changed.
    pub(crate) fn ask(&mut self, lot: &Id)
        ensures asked { self.new ≡ asked_for lot.now self.old }
        ensures valid { (all : List R) → IsValidPrefetch R.lot_of all self.old → IsValidPrefetch R.lot_of all self.new }
    {
        self.last = self.asked;
        self.asked = Some(*lot);
    }

    /// Puts the page of what comes after the lot before instead of what was read.
    pub(crate) fn put(&mut self, page: Page<R>)
        ensures read { self.new ≡ with_page R.lot_of page self.old }
        ensures valid { (all : List R) → Rise R.lot_of (rows_after R.lot_of self.old.last all)
            → page ≡ page_of (rows_after R.lot_of self.old.last all) → IsValidPrefetch R.lot_of all self.new }
    {
        let Page { rows, has_more } = page;
        self.before = end_of(rows.as_slice(), has_more);
        self.after = self.last;
        self.is_read = true;
        self.rows = rows;
    }

    /// The rows of a lot, where it is between the bounds.
    #[tactic(auto, using(crate::proofs::PrefetchedPage::run_is))]
    pub(crate) fn run(&self, lot: &Id) -> Option<&[R]>
        ensures answered { is_some result ≡ is_answered lot.now self.now }
        ensures rows { (all : List R) → IsValidPrefetch R.lot_of all self.now
            → IfSome result (λ rows. rows.now ≡ rows_of R.lot_of lot.now all) }
    {
        if self.is_within(lot) {
            Some(run_of(self.rows.as_slice(), lot))
        } else {
            None
        }
    }
}

/// Whether a lot's id is that of another but for its last character: such lots are mostly near each other.
fn are_near(lot: &Id, other: &Option<Id>) -> bool
    ensures { result ≡ are_near lot.now other.now }
{
    let Some(other) = other else {
        return false;
    };
    let (id, other) = (lot.as_bytes(), other.as_bytes());
    id.len() == other.len() && other.starts_with(&id[..id.len().saturating_sub(1)])
}

fn is_before(lot: &Id, before: &Option<Id>) -> bool
    ensures { result ≡ is_before before.now lot.now }
{
    match before {
        Some(end) => lot < end,
        None => true,
    }
}

// Where a page ends before the rows do: the last lot of it, which may have more rows after the page.
fn end_of<R: OfLot>(rows: &[R], has_more: bool) -> Option<Id>
    ensures { result ≡ end_of R.lot_of rows.now has_more }
{
    if !has_more {
        return None;
    }
    match rows.last() {
        Some(row) => Some(row.lot()),
        None => None,
    }
}
