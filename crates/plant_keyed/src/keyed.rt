ghost use Rattle.std.specs.Prelude.{◌≡◌, ◌≤◌, false, ℕ, List, IfOk, IfSome, IsSome, OnOk, IsTrue};
ghost use Rattle.sqlite.specs.State.{HasCleanDisk};
ghost use Rattle.sqlite.specs.Held.{state};
ghost use Rattle.sqlite.specs.Values.{bound};
ghost use Rattle.sql_queries.specs.{AreGiven};
ghost use Rattle.sql_queries.specs.Selects.{Selects};
ghost use Rattle.plant_base.specs.{greatest_seq};
ghost use Rattle.plant_view.specs.{position_of};
ghost use Rattle.plant_keyed.specs.Decoding.{AreFound, IsFirstFound, AreDecoded, IsDecoded};
ghost use Rattle.plant_keyed.specs.LookupOutcomes.{PreservesFrame, IsReported};
ghost use Rattle.plant_keyed.specs.Caching.{IsTraced, CacheStaysValid};
ghost use Rattle.plant_keyed.specs.StateShown.{abstraction};

use crate::found::found_rows;
use crate::lookup_cache::LookupCache;
use crate::lookup_texts;
use plant_base::{Meta, Position};
use plant_tables::table_defs::META;
use plant_tables_columns::Decoded;
use sql_tables::{StoreFault, TableDef};
use sqlite::types::ValueRef;
use sqlite::{Alter, Connection};
use std::alloc::Global;

/// The rows of a desk's tables, each found by its key by a query over a connection that is lent. Nothing is written.
///
/// It keeps whether a lookup failed: from then on the connection may be closed. Of the rows it remembers the position, which each
/// command and question asks for, and all edges, once a trace has asked for many nodes.
#[derive(Drop)]
pub struct Keyed<'a, S: Alter> {
    pub(crate) alloc: Global,
    /// The connection that is lent; lookups read through it.
    pub conn: &'a mut Connection<S>,
    /// Whether a lookup failed; the connection may be closed then.
    pub has_failed: bool,
    /// What lookups remember.
    pub cache: &'a mut LookupCache,
    // How many commands were accepted, where that was read, and how many nodes were looked up.
    pub(crate) commands: u64,
    pub(crate) asked: u64,
}

impl<'a, S: Alter> Keyed<'a, S> {
    /// Over a connection, with a cache for what lookups remember. No memory is taken.
    pub fn new(
        alloc: Global,
        conn: &'a mut Connection<S>,
        cache: &'a mut LookupCache,
    ) -> Keyed<'a, S>
        ensures same_reference { result.conn.ghost_name ≡ conn.entry.ghost_name }
        ensures same { result.conn.now ≡ conn.old }
        ensures unfailed { result.has_failed ≡ false }
        ensures cached { result.cache.now ≡ cache.old }
        ensures counts { (result.commands ≡ 0) × (result.asked ≡ 0) }
    {
        Keyed {
            alloc,
            conn,
            has_failed: false,
            cache,
            commands: 0,
            asked: 0,
        }
    }

    /// The rows of a table that have the given values, by the first key of the table.
    pub(crate) fn found<R: Decoded>(
        &mut self,
        table_def: &TableDef<'_>,
        sql: &str,
        values: &[ValueRef<'_>],
    ) -> Result<Vec<R>, StoreFault>
        requires { (places : List ℕ) × Selects table_def.now places sql.now }
        ensures same_reference { self.new.conn.ghost_name ≡ self.old.conn.ghost_name }
        ensures rows { (places : List ℕ) → Selects table_def.now places sql.now
            → AreGiven places (bound values.now)
            → HasCleanDisk (state S.Store self.new.conn.now)
            → IfOk result (λ rows. AreFound (state S.Store self.old.conn.now).now table_def.now
            R.row_from places (bound values.now) rows.items) }
        ensures decoded { IfOk result (λ rows. AreDecoded R.row_from rows.items) }
        ensures live { HasCleanDisk (state S.Store self.new.conn.now)
            → OnOk result (IsTrue (state S.Store self.new.conn.now).is_open) }
        ensures frame { PreservesFrame (state S.Store self.old.conn.now) (state S.Store self.new.conn.now)
            self.old.has_failed self.new.has_failed }
        ensures cached { self.new.cache.now ≡ self.old.cache.now }
        ensures asked { self.new.asked ≡ self.old.asked }
    {
        match found_rows(self.alloc, self.conn, table_def, sql, values) {
            Ok(rows) => Ok(rows),
            Err(fault) => {
                self.has_failed = true;
                Err(fault)
            }
        }
    }

    /// The first of these rows, where there is one: the only one, where the values are those of a key.
    pub(crate) fn first_found<R: Decoded + Copy>(
        &mut self,
        table_def: &TableDef<'_>,
        sql: &str,
        values: &[ValueRef<'_>],
    ) -> Result<Option<R>, StoreFault>
        requires { (places : List ℕ) × Selects table_def.now places sql.now }
        ensures same_reference { self.new.conn.ghost_name ≡ self.old.conn.ghost_name }
        ensures row { (places : List ℕ) → Selects table_def.now places sql.now
            → AreGiven places (bound values.now)
            → HasCleanDisk (state S.Store self.new.conn.now)
            → IfOk result (IsFirstFound (state S.Store self.old.conn.now).now table_def.now
            R.row_from places (bound values.now)) }
        ensures decoded { IfOk result (λ row. IfSome row (IsDecoded R.row_from)) }
        ensures live { HasCleanDisk (state S.Store self.new.conn.now)
            → OnOk result (IsTrue (state S.Store self.new.conn.now).is_open) }
        ensures frame { PreservesFrame (state S.Store self.old.conn.now) (state S.Store self.new.conn.now)
            self.old.has_failed self.new.has_failed }
        ensures cached { self.new.cache.now ≡ self.old.cache.now }
    {
        let rows = self.found::<R>(table_def, sql, values)?;
        Ok(rows.as_slice().first().copied())
    }

    /// How many commands were accepted, and the moment of the last, read anew and remembered. Store where table meta has
    /// no row, and as each lookup; an Ok comes of a connection that is open.
    pub fn read_position(&mut self) -> Result<Position, StoreFault>
        ensures same_reference { self.new.conn.ghost_name ≡ self.old.conn.ghost_name }
        ensures reported { IsReported (state S.Store self.old.conn.now) (state S.Store self.new.conn.now)
            self.old.has_failed self.new.has_failed
            (IfOk result (λ p. p ≡ position_of (abstraction (state S.Store self.old.conn.now).now))) }
        ensures small { IfOk result (λ p. p.seq ≤ greatest_seq) }
        ensures live { HasCleanDisk (state S.Store self.new.conn.now)
            → OnOk result (IsTrue (state S.Store self.new.conn.now).is_open) }
        ensures stays { CacheStaysValid (state S.Store self.old.conn.now).now (state S.Store self.new.conn.now)
            self.new.has_failed self.old.cache.now self.new.cache.now }
        ensures remembered { OnOk result (IsSome self.new.cache.now.position) }
        ensures commands { IfOk result (λ p. self.new.commands ≡ p.seq) }
    {
        match self.first_found::<Meta>(&META, lookup_texts::META, &[])? {
            Some(meta) => {
                self.commands = meta.position.seq;
                self.cache.remember(meta.position);
                Ok(meta.position)
            }
            None => Err(StoreFault::Store),
        }
    }

    /// The position that was read before, else as it is read now. The faults are those of each lookup.
    pub(crate) fn known_position(&mut self) -> Result<Position, StoreFault>
        ensures same_reference { self.new.conn.ghost_name ≡ self.old.conn.ghost_name }
        ensures traced { IsTraced (state S.Store self.old.conn.now) (state S.Store self.new.conn.now)
            self.old.has_failed self.new.has_failed self.old.cache.now self.new.cache.now
            (IfOk result (λ p. p ≡ position_of (abstraction (state S.Store self.old.conn.now).now))) }
        ensures unasked { IsSome self.old.cache.now.position → self.new.conn.now ≡ self.old.conn.now }
    {
        match self.cache.position {
            Some(position) => Ok(position),
            None => self.read_position(),
        }
    }
}
