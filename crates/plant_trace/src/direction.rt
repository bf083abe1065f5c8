//! Which way a trace goes.

/// Which way a trace goes.
#[derive(Clone, Copy, Debug, PartialEq, Eq)]
pub enum Direction {
    /// Against the edges: to what a node was made from.
    Back,
    /// Along the edges: to what was made from a node.
    Forward,
}
