//! Why a check ends before it has reported all.
ghost use Rattle.std.specs.Prelude.{◌≡◌, Some};
ghost use Rattle.desk_cli.specs.CheckFaults.{fault_status, fault_text};

use std::fmt;

/// Why a check of a file ends before it has reported all.
#[derive(Clone, Copy, Debug, PartialEq, Eq)]
pub enum CheckFault {
    /// The file can't be opened.
    Open,
    /// A read failed, or the input had not ended after 10^9 reads.
    Read,
    /// A text couldn't be written whole.
    Write,
    /// Memory was refused.
    Memory,
}

impl CheckFault {
    /// The exit status of a check that ended so.
    pub fn status(self) -> u8
        ensures { result ≡ fault_status self }
    {
        match self {
            CheckFault::Open | CheckFault::Read | CheckFault::Write => 3,
            CheckFault::Memory => 4,
        }
    }
}

impl std::error::Error for CheckFault {}

impl fmt::Display for CheckFault {
    ghost output = { λ fault. Some (fault_text fault) };

    fn fmt<W: fmt::Write>(&self, f: &mut fmt::Formatter<W>) -> fmt::Result {
        f.write_str(match self {
            CheckFault::Open => "fault: open",
            CheckFault::Read => "fault: read",
            CheckFault::Write => "fault: write",
            CheckFault::Memory => "fault: memory",
        })
    }
}
