//! How far a keeper is.
ghost use Rattle.std.specs.Prelude.{◌≡◌, ◌≢◌, false, IfOk, IfErr};
ghost use Rattle.desk_program.specs.Faults.{IsPrintFault};
ghost use Rattle.plant_base.specs.{State};
ghost use Rattle.plant_keeper.specs.{IsSameDesk};
ghost use Rattle.desk_program.specs.Faults as spec;

use crate::fault::ProgramFault;
use plant_keeper::Keeper;
use plant_questions::{Answer, DeskFault, Question};

/// The schema of a keeper's tables, and how many commands it has accepted.
#[derive(Clone, Copy)]
pub(crate) struct DeskSummary {
    pub(crate) schema: u64,
    pub(crate) seq: u64,
}

/// The summary in an answer, where it is one.
fn summary_in(answer: &Answer) -> Option<DeskSummary>
    ensures { result ≡ spec.summary_in answer.now }
{
    if let Answer::Desk { schema, seq } = answer {
        Some(DeskSummary {
            schema: *schema,
            seq: *seq,
        })
    } else {
        None
    }
}

/// The summary of a keeper by what it answered, or its fault.
fn summary_of(asked: Result<Answer, DeskFault>) -> Result<DeskSummary, ProgramFault>
    ensures is { result ≡ spec.summary_of asked }
    ensures fault { IfErr result IsPrintFault }
    ensures write_error { IfErr result (λ fault. fault ≢ ProgramFault.Write) }
{
    match asked {
        // No keeper that keeps its contract answers anything else.
        Ok(answer) => summary_in(&answer).ok_or(ProgramFault::Store),
        Err(fault) => Err(ProgramFault::from(fault)),
    }
}

/// Asks an open keeper for its summary. It stays open, in the same state.
pub(crate) fn ask_summary<K: Keeper>(keeper: &mut K) -> Result<DeskSummary, ProgramFault>
    requires { K.shut keeper.old ≡ false }
    ensures same { IsSameDesk K.honest K.schema K.foreign_tables keeper.old keeper.new }
    ensures open { K.shut keeper.new ≡ false }
    ensures stays { K.honest keeper.new → (s : State) → K.represents keeper.old s → K.represents keeper.new s }
    ensures asked { K.honest keeper.new → (s : State) → K.represents keeper.old s
        → IfOk result (λ at. (at.schema ≡ K.schema keeper.old) × (at.seq ≡ s.seq)) }
    ensures fault { IfErr result IsPrintFault }
    ensures write_error { IfErr result (λ fault. fault ≢ ProgramFault.Write) }
{
    summary_of(keeper.ask(&Question::Desk))
}
