//! When a page is read ahead. It changes no answer, but how long one takes.

ghost use Rattle.std.specs.Prelude.{◌≡◌};
ghost use Rattle.plant_questions.specs.FetchPolicy.{after_hit, after_miss, first_policy, is_due};
ghost use Rattle.plant_questions.specs.FetchPolicy.{next_pause, row_with, was_worth};

/// A page takes the time of some thirty lookups: after one that answered so many lots the next is read at once.
const WORTH: u32 = 32;

/// So many lots are looked up before a page is read where nothing speaks for one: more than a page of a list has.
const PAUSE: u32 = 128;

/// So many lots in a row that are each near the one before speak for a first page.
const IN_A_ROW: u32 = 4;

/// What was asked for, as far as it decides whether to read a page ahead.
#[derive(Clone, Copy, Debug)]
pub struct PrefetchPolicy {
    /// How many lots are to be looked up yet before a page is read.
    wait: u32,
    /// How many are to be looked up after the next page, where it answers few lots.
    pause: u32,
    /// How many lots in a row were each near the one before.
    row: u32,
    /// How many lots the last page answered.
    hits: u32,
}

impl PrefetchPolicy {
    /// Nothing was asked for. The first page is read for the first lot, or where something speaks for it.
    pub(crate) fn new(at_once: bool) -> PrefetchPolicy
        ensures { result ≡ first_policy at_once }
    {
        PrefetchPolicy {
            wait: if at_once { 0 } else { PAUSE },
            pause: PAUSE,
            row: 0,
            hits: 0,
        }
    }

    /// Notes that the last page answers a lot.
    pub(crate) fn record_hit(&mut self)
        ensures { self.new ≡ after_hit self.old }
    {
        self.hits = self.hits.saturating_add(1);
    }

    /// Whether a page is to be read for a lot that the last one doesn't answer, where one was read, and that is near the lot before it or
    /// isn't.
    pub(crate) fn should_fetch(&mut self, is_near: bool, is_read: bool) -> bool
        ensures due { result ≡ is_due (row_with is_near self.old.row) is_read self.old }
        ensures counts { self.new ≡ after_miss (row_with is_near self.old.row) result self.old }
    {
        let row = row_with(is_near, self.row);
        let is_due = self.is_due(row, is_read);
        *self = self.after_miss(row, is_due);
        is_due
    }

    fn is_due(&self, row: u32, is_read: bool) -> bool
        ensures { result ≡ is_due row is_read self.now }
    {
        let is_likely = !is_read && row >= IN_A_ROW;
        self.was_worth() || is_likely || self.wait == 0
    }

    /// What is counted once a page is read, or a lot looked up.
    fn after_miss(&self, row: u32, is_due: bool) -> PrefetchPolicy
        ensures { result ≡ after_miss row is_due self.now }
    {
        if !is_due {
            return PrefetchPolicy {
                wait: self.wait.saturating_sub(1),
                row,
                ..*self
            };
        }
        let pause = self.next_pause();
        PrefetchPolicy {
            wait: pause,
            pause,
            row,
            hits: 0,
        }
    }

    fn next_pause(&self) -> u32
        ensures { result ≡ next_pause self.now }
    {
        if self.was_worth() {
            PAUSE
        } else {
            self.pause.saturating_mul(2)
        }
    }

    fn was_worth(&self) -> bool
        ensures { result ≡ was_worth self.now }
    {
        self.hits >= WORTH
    }
}

fn row_with(is_near: bool, row: u32) -> u32
    ensures { result ≡ row_with is_near row }
{
    if is_near { row.saturating_add(1) } else { 0 }
}
