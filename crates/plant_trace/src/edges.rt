//! Where edges come from.

ghost use Rattle.std.specs.Prelude.{◌≡◌, List, IfOk};
ghost use Rattle.plant_trace.specs.declared.node.Node.{Node};
ghost use Rattle.plant_trace.specs.declared.direction.Direction.TheVariants.{Back, Forward};
ghost use Rattle.plant_trace.specs.Reach.{IsNext, Lists};
ghost use Rattle.plant_trace.specs.HoldsIfHonest.{HoldsIfHonest};

use crate::node::Node;

/// A source of edges: a list of pairs, or a store of them.
///
/// A pair `(a, b)` says that material of `a` went into `b`.
/// A source need not be trustworthy. What its answers say holds where it is honest as a call ends,
/// and what is steady stays in any case.
pub trait Edges {
    /// Why a call has no answer.
    type Fault;

    /// The answers can be trusted.
    ghost honest: { Self → Type 0 };

    /// All answers are of these pairs.
    ghost pairs: { Self → List (Node × Node) };

    /// What no call of an honest source changes is the same: old, then new.
    ghost kept: { Self → Self → Type 0 };

    /// What no call changes, whatever the source does: old, then new.
    ghost frame: { Self → Self → Type 0 };

    /// The nodes that an edge leads to from this one, strictly ascending.
    fn succ(&mut self, node: Node) -> Result<Vec<Node>, Self::Fault>
        ensures { HoldsIfHonest honest kept frame self.old self.new
            (IfOk result (λ nodes. Lists (IsNext Forward (pairs self.old) node) nodes.items)) };

    /// The nodes from which an edge leads to this one, strictly ascending.
    fn pred(&mut self, node: Node) -> Result<Vec<Node>, Self::Fault>
        ensures { HoldsIfHonest honest kept frame self.old self.new
            (IfOk result (λ nodes. Lists (IsNext Back (pairs self.old) node) nodes.items)) };

    /// What is kept stays where nothing is called.
    ghost kept_refl: { (s : Self) → kept s s };

    /// What each of two calls keeps, both keep.
    ghost kept_trans: { (s t u : Self) → kept s t → kept t u → kept s u };

    /// What is steady stays where nothing is called.
    ghost frame_refl: { (s : Self) → frame s s };

    /// What is steady over each of two calls is steady over both.
    ghost frame_trans: { (s t u : Self) → frame s t → frame t u → frame s u };

    /// The pairs are kept.
    ghost kept_pairs: { (s t : Self) → kept s t → pairs t ≡ pairs s };
}
