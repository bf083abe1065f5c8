//! What lookups over one connection remember.

ghost use Rattle.std.specs.Prelude.{◌≡◌, false, Some, None};
ghost use Rattle.plant_base.specs.{Position as Known};

use crate::edge_cache::EdgeCache;
use plant_base::Position;
use std::alloc::Global;

/// The rows that lookups over one connection remember, while nothing is written.
#[derive(Drop)]
pub struct LookupCache {
    /// The desk's position, once it was read.
    pub position: Option<Position>,
    /// The edges, once a trace has read all of them.
    pub edges: EdgeCache,
}

impl LookupCache {
    /// Nothing, since nothing was read. No memory is taken.
    pub fn unread(alloc: Global) -> LookupCache
        ensures position { result.position ≡ None }
        ensures edges { result.edges.are_read ≡ false }
    {
        LookupCache {
            position: None,
            edges: EdgeCache::unread(alloc),
        }
    }

    /// Remembers the position, where none is remembered.
    pub(crate) fn remember(&mut self, position: Position)
        ensures edges { self.new.edges ≡ self.old.edges }
        ensures known { (q : Known) → self.old.position ≡ Some q → self.new.position ≡ Some q }
        ensures unknown { self.old.position ≡ None → self.new.position ≡ Some position }
    {
        if self.position.is_none() {
            self.position = Some(position);
        }
    }
}
