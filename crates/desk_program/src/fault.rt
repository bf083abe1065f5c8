//! Why the program doesn't do its work.

ghost use Rattle.std.specs.Prelude.{◌≡◌, ◌≢◌};
ghost use Rattle.desk_program.specs.Faults as spec;

use plant_check_rules::Rule;
use plant_desk_store::AdoptFault;
use plant_questions::DeskFault;
use plant_text::{RunEnd, TurnError};
use sqlite::{Error, ErrorCode};

/// Why the program doesn't do its work.
#[derive(Clone, Copy, Debug, PartialEq, Eq, thiserror::Error)]
pub enum ProgramFault {
    /// The store failed.
    #[error("the store failed")]
    Store,
    /// The tables are of this schema, which is above the newest.
    #[error("the tables are of schema {0}")]
    Newer(u64),
    /// The tables break this rule, and none before it.
    #[error("the tables break rule {0:?}")]
    Damaged(Rule),
    /// Memory was refused.
    #[error("out of memory")]
    Memory,
    /// Standard input failed.
    #[error("standard input failed")]
    Read,
    /// Standard output failed, or took no byte.
    #[error("standard output failed")]
    Write,
    /// After 10^9 reads standard input had not ended.
    #[error("too many reads")]
    Endless,
    /// The port couldn't be listened on, or no connection be taken.
    #[error("the port failed")]
    Net,
}

impl ProgramFault {
    /// The exit status: 4 for want of memory, else 3.
    pub fn status(self) -> u8
        ensures { result ≡ spec.status_of self }
    {
        match self {
            ProgramFault::Memory => 4,
            _ => 3,
        }
    }
}

impl From<AdoptFault> for ProgramFault {
    ghost use Rattle.std.specs.Prelude.{◌≡◌};
    ghost use Rattle.desk_program.specs.Faults.{adopt_fault};

    ghost from_gives = { λ fault reported. reported ≡ adopt_fault fault };

    fn from(fault: AdoptFault) -> ProgramFault {
        match fault {
            AdoptFault::Store => ProgramFault::Store,
            AdoptFault::Newer(schema) => ProgramFault::Newer(schema),
            AdoptFault::Damaged(rule) => ProgramFault::Damaged(rule),
            AdoptFault::Memory => ProgramFault::Memory,
        }
    }
}

impl From<DeskFault> for ProgramFault {
    ghost use Rattle.std.specs.Prelude.{◌≡◌};
    ghost use Rattle.desk_program.specs.Faults.{desk_fault};

    ghost from_gives = { λ fault reported. reported ≡ desk_fault fault };

    fn from(fault: DeskFault) -> ProgramFault {
        match fault {
            DeskFault::Store | DeskFault::Shut => ProgramFault::Store,
            DeskFault::Memory => ProgramFault::Memory,
        }
    }
}

/// Whether a run refused something, or the fault that ended it.
pub(crate) fn outcome_of(end: RunEnd) -> Result<bool, ProgramFault>
    ensures { result ≡ spec.outcome_of end }
{
    match end {
        RunEnd::Done { refused } => Ok(refused),
        RunEnd::Read => Err(ProgramFault::Read),
        RunEnd::Write => Err(ProgramFault::Write),
        RunEnd::Endless => Err(ProgramFault::Endless),
        RunEnd::Fault(fault) => Err(ProgramFault::from(fault)),
    }
}

/// Whether a command was refused, or the fault that stopped its reply.
pub(crate) fn outcome_of_turn(turn: Result<bool, TurnError>) -> Result<bool, ProgramFault>
    ensures { result ≡ spec.outcome_of_turn turn }
{
    match turn {
        Ok(refused) => Ok(refused),
        Err(TurnError::Write) => Err(ProgramFault::Write),
        Err(TurnError::Fault(fault)) => Err(ProgramFault::from(fault)),
    }
}

/// The fault of a store that doesn't open.
pub(crate) fn opening_fault(error: &Error) -> ProgramFault
    ensures memory { error.now ≡ Error.SqliteFailure ErrorCode.OutOfMemory → result ≡ ProgramFault.Memory }
    ensures store { error.now ≢ Error.SqliteFailure ErrorCode.OutOfMemory → result ≡ ProgramFault.Store }
{
    match error {
        Error::SqliteFailure(ErrorCode::OutOfMemory) => ProgramFault::Memory,
        _ => ProgramFault::Store,
    }
}
