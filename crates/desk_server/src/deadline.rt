//! How long a connection may stay as it is.
ghost use Rattle.std.specs.Prelude.{◌≡◌};
ghost use Rattle.desk_server.specs.Deadline.{time_left};

use crate::connection::Stage;

/// How long a connection may be silent, within its request or while its answer is written, in milliseconds.
const MOST_SILENT: u64 = 10_000;

/// How long a request may take from its first byte until it is whole, in milliseconds.
const MOST_REQUEST: u64 = 20_000;

/// How long the server reads on after an answer, in milliseconds.
const MOST_AFTER: u64 = 1_000;

/// For how many milliseconds more a connection may stay as it is that last moved on at a moment: ten seconds while it is read or
/// written, and never past the twenty of its request; a second after its answer.
pub(crate) fn time_left(stage: Stage, moved: u64, now: u64) -> u64
    ensures { result ≡ time_left stage moved now }
{
    let idle = now.saturating_sub(moved);
    match stage {
        Stage::Silent | Stage::Writing { .. } => MOST_SILENT.saturating_sub(idle),
        Stage::Reading { first, .. } => MOST_SILENT
            .saturating_sub(idle)
            .min(MOST_REQUEST.saturating_sub(now.saturating_sub(first))),
        Stage::Ending { .. } => MOST_AFTER.saturating_sub(idle),
    }
}
