//! The edges of the genealogy, each found from either of its ends by its key; where a trace asks for many nodes, all of
//! them are read at once.

ghost use Rattle.std.specs.Prelude.{◌≡◌, filter, map, false, true, IfOk, IfSome, IsSome, OnOk};
ghost use Rattle.sqlite.specs.Held.{state};
ghost use Rattle.plant_base.specs.{State};
ghost use Rattle.plant_trace.specs.{IsNext, Lists};
ghost use Rattle.plant_view.specs.{edge_rows, edges_of, ends_of};
ghost use Rattle.plant_keyed.specs.Edges.{begins_at, id_of, AreKindsAt, AreTurned, HasEdgesAt};
ghost use Rattle.plant_keyed.specs.LookupOutcomes.{PreservesFrame, IsReported};
ghost use Rattle.plant_keyed.specs.Caching.{AreEdgesOf, IsTraced, CacheStaysValid, one_more};
ghost use Rattle.plant_keyed.specs.Caching.{are_few, are_seen};
ghost use Rattle.plant_keyed.specs.StateShown.{abstraction};

use crate::edge_cache::EdgeCache;
use crate::faults::if_memory;
use crate::keyed::Keyed;
use crate::lookup_texts;
use plant_base::{EdgeKind, EdgeRow, Id};
use plant_tables::table_defs::EDGE;
use plant_tables_columns::storing::{id as text_of, small};
use plant_trace::{Direction, Node, neighbours};
use plant_view::ends;
use sql_tables::StoreFault;
use sqlite::Alter;
use std::alloc::{AllocError, Global};

/// So many nodes are looked up before all edges are read, and one more for each so many commands that the desk has
/// accepted: reading the edges that these made takes about as long as the lookups of a node.
const FEW: u64 = 256;

const A_LOOKUP: u64 = 16;

impl<'a, S: Alter> Keyed<'a, S> {
    /// The edges of a kind that begin at the lot or batch of this id, as the direction sees them. The faults are those
    /// of each lookup.
    fn edges_of_kind(
        &mut self,
        kind: EdgeKind,
        id: &Id,
        direction: Direction,
    ) -> Result<Vec<EdgeRow>, StoreFault>
        ensures same_reference { self.new.conn.ghost_name ≡ self.old.conn.ghost_name }
        ensures reported { IsReported (state S.Store self.old.conn.now) (state S.Store self.new.conn.now)
            self.old.has_failed self.new.has_failed
            (IfOk result (λ rows. rows.items ≡ filter (begins_at direction kind id.now)
            (edge_rows (abstraction (state S.Store self.old.conn.now).now).movements))) }
        ensures cached { self.new.cache.now ≡ self.old.cache.now }
    {
        let key = [small(kind.number()), text_of(id)];
        match direction {
            Direction::Forward => self.found(&EDGE, lookup_texts::EDGES_FROM, &key),
            Direction::Back => self.found(&EDGE, lookup_texts::EDGES_TO, &key),
        }
    }

    /// The edges that begin at the node, as the direction sees them. The faults are those of each lookup.
    fn edges_at(&mut self, node: &Node, direction: Direction) -> Result<Vec<EdgeRow>, StoreFault>
        ensures same_reference { self.new.conn.ghost_name ≡ self.old.conn.ghost_name }
        ensures reported { IsReported (state S.Store self.old.conn.now) (state S.Store self.new.conn.now)
            self.old.has_failed self.new.has_failed
            (IfOk result (λ rows. HasEdgesAt direction node.now
            (edges_of (abstraction (state S.Store self.old.conn.now).now)) (map ends_of rows.items))) }
        ensures cached { self.new.cache.now ≡ self.old.cache.now }
    {
        let (kind, second) = kinds_at(node, direction);
        let id = id_of(node);
        let mut rows = self.edges_of_kind(kind, id, direction)?;
        let Some(other) = second else {
            return Ok(rows);
        };
        let more = self.edges_of_kind(other, id, direction)?;
        if_memory(rows.extend_from_slice(more.as_slice()))?;
        Ok(rows)
    }

    /// The nodes that come right after this one in the direction, strictly ascending, by the edges that begin at it. The
    /// faults are those of each lookup.
    fn look_up_next(&mut self, node: Node, direction: Direction) -> Result<Vec<Node>, StoreFault>
        ensures same_reference { self.new.conn.ghost_name ≡ self.old.conn.ghost_name }
        ensures reported { IsReported (state S.Store self.old.conn.now) (state S.Store self.new.conn.now)
            self.old.has_failed self.new.has_failed
            (IfOk result (λ nodes. Lists (IsNext direction
            (edges_of (abstraction (state S.Store self.old.conn.now).now)) node) nodes.items)) }
        ensures cached { self.new.cache.now ≡ self.old.cache.now }
    {
        let edges = self.edges_at(&node, direction)?;
        let nodes = if_memory(nodes_by(self.alloc, edges.as_slice(), node, direction))?;
        Ok(nodes)
    }

    /// All edges. The faults are those of each lookup.
    fn all_edges(&mut self) -> Result<Vec<EdgeRow>, StoreFault>
        ensures same_reference { self.new.conn.ghost_name ≡ self.old.conn.ghost_name }
        ensures reported { IsReported (state S.Store self.old.conn.now) (state S.Store self.new.conn.now)
            self.old.has_failed self.new.has_failed
            (IfOk result (λ rows. rows.items
            ≡ edge_rows (abstraction (state S.Store self.old.conn.now).now).movements)) }
        ensures cached { self.new.cache.now ≡ self.old.cache.now }
        ensures asked { self.new.asked ≡ self.old.asked }
    {
        self.found(&EDGE, lookup_texts::EDGES, &[])
    }

    /// Reads all edges and remembers them as the direction sees them. The faults are those of each lookup.
    fn fill(&mut self, direction: Direction) -> Result<(), StoreFault>
        requires { self.old.cache.now.edges.are_read ≡ false }
        ensures same_reference { self.new.conn.ghost_name ≡ self.old.conn.ghost_name }
        ensures frame { PreservesFrame (state S.Store self.old.conn.now) (state S.Store self.new.conn.now)
            self.old.has_failed self.new.has_failed }
        ensures stays { CacheStaysValid (state S.Store self.old.conn.now).now (state S.Store self.new.conn.now)
            self.new.has_failed self.old.cache.now self.new.cache.now }
        ensures read { OnOk result (self.new.cache.now.edges.are_read ≡ true) }
        ensures asked { self.new.asked ≡ self.old.asked }
    {
        let rows = self.all_edges()?;
        let all = if_memory(cached_by(self.alloc, rows.as_slice(), direction))?;
        self.cache.edges = all;
        Ok(())
    }

    /// Reads and remembers all edges, where the nodes that were asked for are so many that this is no dearer than what was
    /// looked up for them. The faults are those of each lookup.
    fn fill_if_many(&mut self, direction: Direction) -> Result<(), StoreFault>
        ensures same_reference { self.new.conn.ghost_name ≡ self.old.conn.ghost_name }
        ensures frame { PreservesFrame (state S.Store self.old.conn.now) (state S.Store self.new.conn.now)
            self.old.has_failed self.new.has_failed }
        ensures stays { CacheStaysValid (state S.Store self.old.conn.now).now (state S.Store self.new.conn.now)
            self.new.has_failed self.old.cache.now self.new.cache.now }
        ensures counted { self.new.asked ≡ one_more self.old.asked }
        ensures few { are_few (one_more self.old.asked) self.old.commands ≡ true → self.new.cache.now ≡ self.old.cache.now }
        ensures many { are_few (one_more self.old.asked) self.old.commands ≡ false → OnOk result (self.new.cache.now.edges.are_read ≡ true) }
        ensures once { self.old.cache.now.edges.are_read ≡ true
            → (self.new.cache.now ≡ self.old.cache.now) × (self.new.conn.now ≡ self.old.conn.now) }
    {
        self.asked = self.asked.saturating_add(1);
        if self.cache.edges.are_read || are_few(self.asked, self.commands) {
            return Ok(());
        }
        self.fill(direction)
    }

    /// The nodes that come right after this one in the direction, strictly ascending. The faults are those of each
    /// lookup.
    pub(crate) fn next_nodes(
        &mut self,
        node: Node,
        direction: Direction,
    ) -> Result<Vec<Node>, StoreFault>
        ensures same_reference { self.new.conn.ghost_name ≡ self.old.conn.ghost_name }
        ensures traced { IsTraced (state S.Store self.old.conn.now) (state S.Store self.new.conn.now)
            self.old.has_failed self.new.has_failed self.old.cache.now self.new.cache.now
            (IfOk result (λ nodes. Lists (IsNext direction
            (edges_of (abstraction (state S.Store self.old.conn.now).now)) node) nodes.items)) }
        ensures unasked { are_seen direction self.old.cache.now.edges ≡ true → self.new.conn.now ≡ self.old.conn.now }
    {
        self.fill_if_many(direction)?;
        let known = if_memory(recalled(self.alloc, &self.cache.edges, &node, direction))?;
        match known {
            Some(nodes) => Ok(nodes),
            None => self.look_up_next(node, direction),
        }
    }
}

// Whether so many nodes are looked up one by one, after so many commands.
fn are_few(asked: u64, commands: u64) -> bool
    ensures { result ≡ are_few asked commands }
{
    asked <= FEW + commands / A_LOOKUP
}

// The kind of the edges that begin at the node, as the direction sees them, and the second kind where there are two.
fn kinds_at(node: &Node, direction: Direction) -> (EdgeKind, Option<EdgeKind>)
    ensures { AreKindsAt direction node.now result }
{
    match (node, direction) {
        (Node::Lot(_), Direction::Forward) => (EdgeKind::LotToBatch, Some(EdgeKind::LotToLot)),
        (Node::Lot(_), Direction::Back) => (EdgeKind::BatchToLot, Some(EdgeKind::LotToLot)),
        (Node::Batch(_), Direction::Forward) => (EdgeKind::BatchToLot, None),
        (Node::Batch(_), Direction::Back) => (EdgeKind::LotToBatch, None),
    }
}

// The id of the lot or batch.
pub(crate) fn id_of(node: &Node) -> &Id
    ensures { result.now ≡ id_of node.now }
{
    match node {
        Node::Lot(id) | Node::Batch(id) => id,
    }
}

// The nodes that come right after this one by the edges. The only error is that memory was refused.
fn nodes_by(
    alloc: Global,
    edges: &[EdgeRow],
    node: Node,
    direction: Direction,
) -> Result<Vec<Node>, AllocError>
    ensures { IfOk result
        (λ nodes. Lists (IsNext direction (map ends_of edges.now) node) nodes.items) }
{
    let pairs = pairs_of(alloc, edges)?;
    neighbours(alloc, pairs.as_slice(), node, direction)
}

// The two nodes of each edge. The only error is that memory was refused.
fn pairs_of(alloc: Global, edges: &[EdgeRow]) -> Result<Vec<(Node, Node)>, AllocError>
    ensures { IfOk result (λ pairs. pairs.items ≡ map ends_of edges.now) }
{
    edges.iter().map(|edge| ends(edge)).collect(alloc)
}

// All of these edges as the direction sees them. The only error is that memory was refused.
fn cached_by(
    alloc: Global,
    edges: &[EdgeRow],
    direction: Direction,
) -> Result<EdgeCache, AllocError>
    ensures way { IfOk result (λ d. d.direction ≡ direction) }
    ensures turned { IfOk result (λ d. AreTurned direction (map ends_of edges.now) d.links.items) }
    ensures read { IfOk result (λ d. d.are_read ≡ true) }
{
    let pairs = pairs_of(alloc, edges)?;
    EdgeCache::new(alloc, pairs.as_slice(), direction)
}

// The nodes that come right after this one in the direction, strictly ascending, where edges are remembered as that
// direction sees them. The only error is that memory was refused.
fn recalled(
    alloc: Global,
    edges: &EdgeCache,
    node: &Node,
    direction: Direction,
) -> Result<Option<Vec<Node>>, AllocError>
    ensures next { (s : State) → AreEdgesOf s edges.now
        → IfOk result (λ found. IfSome found (λ nodes. Lists (IsNext direction (edges_of s) node.now)
        nodes.items)) }
    ensures seen { are_seen direction edges.now ≡ true → IfOk result (λ found. IsSome found) }
{
    if are_seen(edges, direction) {
        let nodes = edges.next(alloc, *node)?;
        Ok(Some(nodes))
    } else {
        Ok(None)
    }
}

// Whether edges were read, as this direction sees them.
fn are_seen(edges: &EdgeCache, direction: Direction) -> bool
    ensures read { result ≡ true → edges.now.are_read ≡ true }
    ensures way { result ≡ true → edges.now.direction ≡ direction }
    ensures seen { result ≡ are_seen direction edges.now }
{
    match (edges.direction, direction) {
        (Direction::Forward, Direction::Forward) | (Direction::Back, Direction::Back) =>
            edges.are_read,
        _ => false,
    }
}
