//! Rows by a key: each row is gone over once, and then all rows of a key are found at once.
#![tactic(auto)]

ghost use Rattle.std.specs.Prelude.{◌≡◌, ◌≤◌, IfOk, find, filter, length, map};
ghost use Rattle.std.specs.Bool.{OnTrue};
ghost use Rattle.std.specs.List.{list_any};
ghost use Rattle.std.specs.Option.{is_some, option_cmp};
ghost use Rattle.std.specs.Ordering.{is_le, is_lt};
ghost use Rattle.grouped_rows.specs.Groups.{EndsAt, HasRows, StartsAt, Rises, Searchable, is_keyed};
ghost use Rattle.grouped_rows.specs.Groups.{rows_of, searched};

use std::alloc::{AllocError, Global};

/// What rows of one kind are grouped by.
pub trait Grouping {
    ghost use Rattle.std.specs.Prelude.{◌≡◌, Option};

    /// The rows.
    type Row: Copy;

    /// Their key.
    type Key: Ord + Copy;

    /// The key of a row, where it is in a group.
    ghost key_of: { Self.Row → Option Self.Key };

    /// The key of a row. `None`: the row is in no group.
    fn key(row: &Self::Row) -> Option<Self::Key>
        ensures { result ≡ key_of row.now };
}

/// Rows, found by their key.
#[derive(Drop)]
pub struct Grouped<'a, G: Grouping> {
    /// The rows, in any order.
    pub rows: &'a [G::Row],
    // Those with a key, in its order; `None` where the rows already rise.
    copy: Option<Vec<G::Row>>,
    ghost rises: { Rises G.Key.cmp G.key_of (searched rows.now copy) },
    ghost same: { HasRows G.Key.cmp G.key_of rows.now (searched rows.now copy) },
}

// Whether the key of a row is less than that of another.
fn is_less<G: Grouping>(row: &G::Row, other: &G::Row) -> bool
    ensures { result ≡ is_lt (option_cmp G.Key.cmp (G.key_of row.now) (G.key_of other.now)) }
{
    G::key(row).cmp(&G::key(other)).is_lt()
}

// Whether the keys rise from row to row.
fn rise<G: Grouping>(rows: &[G::Row]) -> bool
    ensures { OnTrue result (Rises G.Key.cmp G.key_of rows.now) }
{
    rows.is_sorted_by(|row, next| !is_less::<G>(next, row))
}

// The rows that have a key.
fn keyed<'a, G: Grouping>(alloc: Global, rows: &'a [G::Row]) -> Result<Vec<&'a G::Row>, AllocError>
    ensures { IfOk result
        (λ found. map (λ r. r.now) found.items ≡ filter (λ r. is_some (G.key_of r)) rows.now) }
{
    let mut found = Vec::new(alloc);
    for row in rows {
        if G::key(row).is_some() {
            found.push(row)?;
        }
    }
    Ok(found)
}

// The rows themselves.
fn copied<G: Grouping>(alloc: Global, found: &[&G::Row]) -> Result<Vec<G::Row>, AllocError>
    ensures { IfOk result (λ rows. rows.items ≡ map (λ r. r.now) found.now) }
{
    let mut rows = Vec::with_capacity(alloc, found.len())?;
    for row in found {
        rows.push(**row)?;
    }
    Ok(rows)
}

// The rows that have a key, in its order. Only references are moved until they are in order.
fn by_key<G: Grouping>(alloc: Global, rows: &[G::Row]) -> Result<Vec<G::Row>, AllocError>
    ensures { IfOk result (λ copy. Searchable G.Key.cmp G.key_of rows.now copy.items) }
{
    let mut found = keyed::<G>(alloc, rows)?;
    found.sort_by_key(|row| G::key(*row))?;
    copied::<G>(alloc, &found)
}

// A copy of the rows to search in, where they can't be searched themselves.
fn copy_of<G: Grouping>(alloc: Global, rows: &[G::Row]) -> Result<Option<Vec<G::Row>>, AllocError>
    ensures { IfOk result (λ copy. Searchable G.Key.cmp G.key_of rows.now (searched rows.now copy)) }
{
    if rise::<G>(rows) {
        return Ok(None);
    }
    let copy = by_key::<G>(alloc, rows)?;
    Ok(Some(copy))
}

// Whether a row comes before those of a key.
fn is_before<G: Grouping>(row: &G::Row, key: G::Key) -> bool
    ensures { result ≡ is_lt (option_cmp G.Key.cmp (G.key_of row.now) (Some key)) }
{
    G::key(row).cmp(&Some(key)).is_lt()
}

// Whether a row comes before those of a key or is one of them.
fn is_upto<G: Grouping>(row: &G::Row, key: G::Key) -> bool
    ensures { result ≡ is_le (option_cmp G.Key.cmp (G.key_of row.now) (Some key)) }
{
    G::key(row).cmp(&Some(key)).is_le()
}

// The position of the first row that doesn't come before a key, where the keys rise.
fn start_of<G: Grouping>(rows: &[G::Row], key: G::Key) -> usize
    requires { Rises G.Key.cmp G.key_of rows.now }
    ensures bound { result ≤ length rows.now }
    ensures start { StartsAt G.Key.cmp G.key_of rows.now key result }
{
    rows.partition_point(|row| is_before::<G>(row, key))
}

// How many rows come before a key or have it, where the keys rise: looked for among so many of the first rows, and where all of
// these do among twice as many.
fn end_of<G: Grouping>(rows: &[G::Row], key: G::Key, most: usize) -> usize
    requires rises { Rises G.Key.cmp G.key_of rows.now }
    requires some { 1 ≤ most }
    ensures bound { result ≤ length rows.now }
    ensures end { EndsAt G.Key.cmp G.key_of rows.now key result }
{
    if most >= rows.len() {
        return rows.partition_point(|row| is_upto::<G>(row, key));
    }
    if is_upto::<G>(&rows[most], key) {
        let more = most.min(rows.len() - most);
        return end_of::<G>(rows, key, most + more);
    }
    rows[..most].partition_point(|row| is_upto::<G>(row, key))
}

// The rows of a key, where the keys rise.
fn run_of<G: Grouping>(rows: &[G::Row], key: G::Key) -> &[G::Row]
    requires { Rises G.Key.cmp G.key_of rows.now }
    ensures { result.now ≡ rows_of G.Key.cmp G.key_of rows.now key }
{
    let start = start_of::<G>(rows, key);
    let rest = &rows[start..];
    let count = end_of::<G>(rest, key, 1);
    &rest[..count]
}

// Whether a row has the key.
fn is_keyed<G: Grouping>(row: &G::Row, key: G::Key) -> bool
    ensures { result ≡ is_keyed G.Key.cmp (G.key_of row.now) key }
{
    match G::key(row) {
        None => false,
        Some(own) => own.cmp(&key).is_eq(),
    }
}

// The first row of a key, where the keys rise.
fn first_of<G: Grouping>(rows: &[G::Row], key: G::Key) -> Option<G::Row>
    requires { Rises G.Key.cmp G.key_of rows.now }
    ensures { result ≡ find (λ r. is_keyed G.Key.cmp (G.key_of r) key) rows.now }
{
    let start = start_of::<G>(rows, key);
    if start >= rows.len() {
        return None;
    }
    let row = rows[start];
    if is_keyed::<G>(&row, key) {
        return Some(row);
    }
    None
}

impl<'a, G: Grouping> Grouped<'a, G> {
    /// Groups the rows by their key. The only error is that memory was refused.
    pub fn new(alloc: Global, rows: &'a [G::Row]) -> Result<Self, AllocError>
        ensures { IfOk result (λ g. g.rows.now ≡ rows.now) }
    {
        let copy = copy_of::<G>(alloc, rows)?;
        Ok(Grouped { rows, copy })
    }

    // The rows to search in.
    fn searched(&self) -> &[G::Row]
        ensures { result.now ≡ searched self.now.rows.now self.now.copy }
    {
        match &self.copy {
            None => self.rows,
            Some(copy) => copy.as_slice(),
        }
    }

    /// The rows of a key, in their order.
    pub fn at(&self, key: G::Key) -> &[G::Row]
        ensures { result.now ≡ rows_of G.Key.cmp G.key_of self.now.rows.now key }
    {
        run_of::<G>(self.searched(), key)
    }

    /// The first row of a key, where there is one.
    /// `None` where no row has it.
    pub fn first(&self, key: G::Key) -> Option<G::Row>
        ensures { result ≡ find (λ r. is_keyed G.Key.cmp (G.key_of r) key) self.now.rows.now }
    {
        first_of::<G>(self.searched(), key)
    }

    /// Whether some row has the key.
    #[tactic(auto, using(crate::proofs::FirstPassing::some_found))]
    pub fn has(&self, key: G::Key) -> bool
        ensures { result ≡ list_any (λ r. is_keyed G.Key.cmp (G.key_of r) key) self.now.rows.now }
    {
        self.first(key).is_some()
    }
}
