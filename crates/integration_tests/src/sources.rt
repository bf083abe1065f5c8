//! Traces over a source of edges that notes what it is asked, and stops or lies from some call on; and the test for cycles.

ghost use Rattle.std.specs.Prelude.{◌≡◌, ◌<◌, refl};
ghost use Rattle.plant_trace.specs.HoldsIfHonest.{same_along};

use plant_base::Id;
use plant_trace::{Direction, Edges, Node, PairList, TraceFault, acyclic, closure};
use std::alloc::Global;
use std::test::Fail;

/// What a source says instead of nodes.
#[derive(Clone, Copy, Debug, PartialEq, Eq)]
enum SourceError {
    Stopped,
    Memory,
}

/// What a source does at its last call.
#[derive(Clone, Copy)]
enum End<'a> {
    Stops,
    Lies(&'a [Node]),
}

/// A source that can be trusted for all of its calls but the last.
#[derive(Drop)]
struct Ending<'a> {
    inner: PairList<'a>,
    asked: Vec<Node>,
    calls: u32,
    end: End<'a>,
}

impl<'a> Ending<'a> {
    /// A source over these pairs, with so many calls.
    fn new(alloc: Global, pairs: &'a [(Node, Node)], calls: u32, end: End<'a>) -> Ending<'a> {
        Ending {
            inner: PairList { alloc, pairs },
            asked: Vec::new(alloc),
            calls,
            end,
        }
    }

    /// What is said at the last call.
    fn ended(&self) -> Result<Vec<Node>, SourceError> {
        match self.end {
            End::Stops => Err(SourceError::Stopped),
            End::Lies(nodes) => nodes
                .to_vec(self.inner.alloc)
                .map_err(|_fault| SourceError::Memory),
        }
    }
}

impl<'a> Edges for Ending<'a> {
    type Fault = SourceError;

    ghost honest = { λ s. 0 < s.calls };

    ghost pairs = { λ s. s.inner.pairs.now };

    ghost kept = { λ s t. t.inner.pairs.now ≡ s.inner.pairs.now };

    ghost frame = { λ _ _. Unit {0} };

    fn succ(&mut self, node: Node) -> Result<Vec<Node>, SourceError> {
        let asked = node;
        self.asked
            .push(asked)
            .map_err(|_fault| SourceError::Memory)?;
        if self.calls <= 1 {
            self.calls = 0;
            return self.ended();
        }
        self.calls -= 1;
        self.inner.succ(node).map_err(|_fault| SourceError::Memory)
    }

    fn pred(&mut self, node: Node) -> Result<Vec<Node>, SourceError> {
        let asked = node;
        self.asked
            .push(asked)
            .map_err(|_fault| SourceError::Memory)?;
        if self.calls <= 1 {
            self.calls = 0;
            return self.ended();
        }
        self.calls -= 1;
        self.inner.pred(node).map_err(|_fault| SourceError::Memory)
    }

    ghost kept_refl = { λ s. refl };

    ghost kept_trans = { λ s t u a b. same_along a b };

    ghost frame_refl = { λ s. tt };

    ghost frame_trans = { λ s t u a b. tt };

    ghost kept_pairs = { λ s t a. a };
}

/// More calls than a trace of a few lots has.
const MANY: u32 = 100;

fn lot(id: &str) -> Result<Node, Fail> {
    Ok(Node::Lot(Id::read(id.as_bytes()).ok_or("no id")?))
}

fn lots(alloc: Global, ids: &[&str]) -> Result<Vec<Node>, Fail> {
    let mut nodes = Vec::new(alloc);
    for id in ids {
        nodes.push(lot(id)?)?;
    }
    Ok(nodes)
}

/// A split of L-1 into two lots, and their merge.
fn diamond() -> Result<[(Node, Node); 4], Fail> {
    let (one, two, three, four) = (lot("L-1")?, lot("L-2")?, lot("L-3")?, lot("L-4")?);
    Ok([(one, two), (one, three), (two, four), (three, four)])
}

#[test]
fn each_node_is_asked_once(rt: HostRuntime) -> Result<(), Fail> {
    let alloc = rt.alloc();
    let [a, b, c, d] = diamond()?;
    let round = [a, b, c, d, (lot("L-4")?, lot("L-1")?)];
    let asked = lots(alloc, &["L-1", "L-2", "L-3", "L-4"])?;
    for pairs in [diamond()?.as_slice(), round.as_slice()] {
        let mut source = Ending::new(alloc, pairs, MANY, End::Stops);
        closure(alloc, &mut source, lot("L-1")?, Direction::Forward)?;
        assert_eq!(rt; source.asked, asked);
    }
    Ok(())
}

/// Whether a source that stops at its call of this number stops the trace of the diamond.
fn stops(alloc: Global, call: u32) -> Result<bool, Fail> {
    let pairs = diamond()?;
    let mut source = Ending::new(alloc, &pairs, call, End::Stops);
    match closure(alloc, &mut source, lot("L-1")?, Direction::Forward) {
        Ok(_nodes) => Ok(false),
        Err(TraceFault::Edges(SourceError::Stopped)) => Ok(true),
        Err(_fault) => Err(Fail::new("another fault")),
    }
}

#[test]
fn a_fault_is_handed_on(rt: HostRuntime) -> Result<(), Fail> {
    for call in 1..6u32 {
        assert_eq!(rt; stops(rt.alloc(), call)?, call < 5, "at call {call}");
    }
    Ok(())
}

#[test]
fn a_liar_is_listed_in_order(rt: HostRuntime) -> Result<(), Fail> {
    let alloc = rt.alloc();
    let pairs = diamond()?;
    let lies = lots(alloc, &["Z-1", "A-1", "Z-1"])?;
    let mut source = Ending::new(alloc, &pairs, 2, End::Lies(&lies));
    let nodes = closure(alloc, &mut source, lot("L-1")?, Direction::Forward)?;
    assert_eq!(rt; nodes, lots(alloc, &["A-1", "L-2", "L-3", "Z-1"])?);
    Ok(())
}

#[test]
fn a_diamond_has_no_cycle_until_an_edge_closes_it(rt: HostRuntime) -> Result<(), Fail> {
    let [a, b, c, d] = diamond()?;
    assert!(rt; acyclic(rt.alloc(), &[a, b, c, d])?);
    let closing = (lot("L-4")?, lot("L-1")?);
    assert!(rt; !acyclic(rt.alloc(), &[a, b, c, d, closing])?);
    Ok(())
}
