ghost use Rattle.std.specs.Prelude.{◌≡◌};

use sqlite::Error;

/// Why a call on the store gave no answer.
#[derive(Clone, Copy, Debug, PartialEq, Eq, thiserror::Error)]
pub enum StoreFault {
    /// The store failed, be it for want of memory of its own, or what it contains isn't what was asked for.
    #[error("the store failed")]
    Store,
    /// There was no memory for a growth of the desk's own, as of a list or a copy of a text.
    #[error("out of memory")]
    Memory,
}

/// The fault by which an error of the store is reported, whatever it was: want of memory that SQLite reports is the
/// store's.
pub fn fault_of(_: Error) -> StoreFault
    ensures { result ≡ StoreFault.Store }
{
    StoreFault::Store
}
