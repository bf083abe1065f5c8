//! What can stop a trace.

ghost use Rattle.std.specs.Prelude.{◌≡◌};
ghost use Rattle.plant_trace.specs.declared.fault.TraceFault.TheVariants.{Memory};

use std::alloc::AllocError;
use thiserror::Error;

/// Why a trace has no answer.
#[derive(Debug, Drop, Error)]
pub enum TraceFault<F> {
    /// The source of edges gave this fault when it was asked.
    #[error("the source of edges failed")]
    Edges(F),
    /// Memory was refused to the trace itself.
    #[error("out of memory")]
    Memory,
}

impl<F> From<AllocError> for TraceFault<F> {
    ghost from_gives = { λ _ fault. fault ≡ Memory };

    fn from(_fault: AllocError) -> Self {
        TraceFault::Memory
    }
}
