//! Laws of pairs: how they are added with no cycle, and where they lead.

ghost use Rattle.plant_trace.specs.Growth.{IntoKeepsAcyclic, NewKeepsAcyclic};
ghost use Rattle.plant_trace.specs.Reach.{LeadsWhereReached};

/// What may be added to pairs with no cycle, as laws about them; the function itself does nothing.
///
/// `into`: pairs that lead into one node, each from another node that the first does not reach.
/// `new`: pairs that lead into one node, each from another, where no pair begins at that node.
pub fn growth_law()
    ensures into { IntoKeepsAcyclic }
    ensures new { NewKeepsAcyclic }
{}

/// Where pairs lead, as a law about them: to just what the least relation reaches. The function itself does nothing.
pub fn reach_law()
    ensures { LeadsWhereReached }
{}
