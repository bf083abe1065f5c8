//! The positions of nodes, no two of them alike.
ghost use Rattle.std.specs.Prelude.{◌≡◌, true, false, Some, IfOk, IfSome, OnOk};
ghost use Rattle.std.specs.BTreeMap.{Updates};
ghost use Rattle.std.specs.BTreeSet as sets;
ghost use Rattle.std.specs.BTreeSet.{contains};
ghost use Rattle.plant_trace.specs.{node_cmp, rank_of};
ghost use Rattle.genealogy_svg.specs.Positions.{position_cmp, ArePositioned};

use crate::drawing::BoxPosition;
use crate::layers::Layers;
use plant_trace::Node;
use std::alloc::{AllocError, Global};
use std::collections::{BTreeMap, BTreeSet};

/// The positions of nodes.
pub(crate) type BoxPositions = BTreeMap<Node, BoxPosition>;

/// The first free position of a layer from the wished one on.
pub(crate) fn free_from(
    taken: &BTreeSet<BoxPosition>,
    layer: u32,
    wished: u32,
) -> Option<BoxPosition>
    ensures layer { IfSome result (λ position. position.layer ≡ layer) }
    ensures free { IfSome result (λ position. contains position_cmp taken.now position ≡ false) }
{
    for slot in wished..u32::MAX {
        let position = BoxPosition { layer, slot };
        if !taken.contains(&position) {
            return Some(position);
        }
    }
    None
}

pub(crate) fn take(
    taken: &mut BTreeSet<BoxPosition>,
    position: BoxPosition,
) -> Result<(), AllocError>
    ensures { OnOk result (sets.Updates position_cmp taken.old taken.new position true) }
{
    taken.insert(position)?;
    Ok(())
}

fn note(positions: &mut BoxPositions, node: Node, position: BoxPosition) -> Result<(), AllocError>
    ensures { OnOk result (Updates node_cmp positions.old positions.new node (Some position)) }
{
    positions.insert(node, position)?;
    Ok(())
}

/// The number that is noted for a node, 0 where there is none.
fn number_of(numbers: &BTreeMap<Node, u32>, node: Node) -> u32
    ensures { result ≡ rank_of numbers.now node }
{
    numbers.get(&node).copied().unwrap_or(0)
}

/// The positions of nodes: each in its layer, at the first free position from the wished one on. The only error is that
/// memory was refused.
pub(crate) fn positions_of(
    alloc: Global,
    layers: &Layers,
    wishes: &BTreeMap<Node, u32>,
    nodes: &[Node],
) -> Result<BoxPositions, AllocError>
    ensures { IfOk result (ArePositioned layers.now nodes.now) }
{
    let mut taken = BTreeSet::new(alloc);
    let mut positions = BTreeMap::new(alloc);
    for node in nodes {
        match free_from(&taken, number_of(layers, *node), number_of(wishes, *node)) {
            Some(position) => {
                take(&mut taken, position)?;
                note(&mut positions, *node, position)?;
            }
            None => return Err(AllocError),
        }
    }
    Ok(positions)
}
