ghost use Rattle.std.specs.Prelude.{◌≡◌};
ghost use Rattle.plant_questions.specs.Faults.{fault_number};

use plant_base::Refusal;
use thiserror::Error;

/// What a command is answered (the command's part of a job response of IEC 62264-4).
#[derive(Clone, Copy, Debug, PartialEq, Eq)]
pub enum Reply {
    /// The command was accepted as the command of this number, and executed.
    Accepted(u64),
    /// The command was refused, and nothing was changed.
    Refused(Refusal),
}

/// Why a command or a question has no reply. The discriminants are the numbers in replies.
#[derive(Clone, Copy, Debug, PartialEq, Eq, Error)]
pub enum DeskFault {
    /// The store failed, be it for want of memory of its own. After this answer to a command the desk is shut.
    #[error("the store failed")]
    Store = 1,
    /// Memory was refused to a growth of the desk's own, as of a decision, a list or an answer. Nothing has changed.
    #[error("out of memory")]
    Memory = 2,
    /// The desk was shut by an earlier fault of its store. Nothing has changed.
    #[error("the desk is shut")]
    Shut = 3,
}

impl DeskFault {
    /// The fault's number, 1 to 3.
    pub fn number(self) -> u8
        ensures { result ≡ fault_number self }
    {
        self as u8
    }
}
