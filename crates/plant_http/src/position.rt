//! How far a keeper has come.
use plant_base::Moment;

/// How far a keeper has come.
#[derive(Clone, Copy, Debug, PartialEq, Eq)]
pub(crate) struct Position {
    /// The schema of its tables.
    pub(crate) schema: u64,
    /// How many commands it has accepted.
    pub(crate) seq: u64,
    /// The moment of the last of them.
    pub(crate) at: Moment,
}
