//! How a check ends: the exit status.
ghost use Rattle.std.specs.Prelude.{◌≡◌};
ghost use Rattle.line_check.specs.Endings.{status_of};

use desk_cli::CheckFault;

/// The exit status of a check that ended so.
pub(crate) fn status_of(end: &Result<bool, CheckFault>) -> u8
    ensures { result ≡ status_of end.now }
{
    match end {
        Ok(false) => 0,
        Ok(true) => 1,
        Err(fault) => fault.status(),
    }
}
