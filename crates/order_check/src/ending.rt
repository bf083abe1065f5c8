//! How a check ends: whether the file is without faults or why that isn't known, and the exit status.
ghost use Rattle.std.specs.Prelude.{◌≡◌};
ghost use Rattle.order_check.specs.Endings.{end_of, status_of};

use desk_cli::CheckFault;

/// The end of a check whose verdict says this, and was written or not.
pub(crate) fn end_of(is_good: bool, is_written: bool) -> Result<bool, CheckFault>
    ensures { result ≡ end_of is_good is_written }
{
    if is_written {
        Ok(is_good)
    } else {
        Err(CheckFault::Write)
    }
}

/// The exit status of a check that ended so.
pub(crate) fn status_of(end: &Result<bool, CheckFault>) -> u8
    ensures { result ≡ status_of end.now }
{
    match end {
        Ok(true) => 0,
        Ok(false) => 1,
        Err(fault) => fault.status(),
    }
}
