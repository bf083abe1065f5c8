//! Why requests aren't served.
use thiserror::Error;

/// Why requests aren't served any more, or weren't served at all.
#[derive(Clone, Copy, Debug, PartialEq, Eq, Error)]
pub enum ServingFault {
    /// The store failed, which has shut the desk.
    #[error("the store failed")]
    Store,
    /// The port couldn't be listened on, or no connection be taken.
    #[error("the port can't be served")]
    Net,
    /// Memory was refused for the routes.
    #[error("out of memory")]
    Memory,
}
