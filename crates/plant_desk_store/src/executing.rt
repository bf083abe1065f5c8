//! Commands over a store.

ghost use Rattle.std.specs.Prelude.{◌≡◌, ◌+◌, ◌<◌, ◌≤◌, ◌^◌, ℕ, false, true, MatchResult, Ok};
ghost use Rattle.sqlite.specs.Held.{state};
ghost use Rattle.plant_base.specs.{greatest_seq};
ghost use Rattle.plant_view.specs.{PutsOneBatch};
ghost use Rattle.plant_keeper.specs.{writes_nothing};
ghost use Rattle.plant_desk_store.specs.Digests.{with_changes};
ghost use Rattle.plant_desk_store.specs.PrivateContracts.{HasCommitted, HasStepped, HasWritten};

use crate::digest::Digest;
use crate::lookups::{Decided, decide_on};
use plant_base::Envelope;
use plant_questions::{DeskFault, Reply};
use plant_tables::commit_changes;
use plant_view::{Decision, RowChange, RowParts};
use sqlite::{Alter, Connection};
use std::alloc::Global;

/// Executes a command over a store in which no transaction is open: it is decided by lookups, and what it changes is
/// written in one transaction. Its receipt, where it has one, is added to the digest once that is committed.
pub(crate) fn execute_on<S: Alter>(
    alloc: Global,
    connection: &mut Connection<S>,
    envelope: &Envelope,
    digest: &mut Digest,
) -> Result<Reply, DeskFault>
    requires { (state S.Store connection.old).in_transaction ≡ false }
    ensures { HasStepped envelope.now (state S.Store connection.old) (state S.Store connection.new)
        result }
{
    let decided = decide_on(alloc, connection, envelope)?;
    execute_decided(connection, decided, envelope, digest)
}

/// Writes what a command changes that was decided over the store, in one transaction.
fn execute_decided<S: Alter>(
    connection: &mut Connection<S>,
    decided: Decided,
    envelope: &Envelope,
    digest: &mut Digest,
) -> Result<Reply, DeskFault>
    requires rest { (state S.Store connection.old).in_transaction ≡ false }
    requires one_batch { PutsOneBatch decided.decision }
    requires small { decided.seq ≤ greatest_seq }
    ensures written { HasWritten decided envelope.now (state S.Store connection.old)
        (state S.Store connection.new) result }
    ensures untouched { writes_nothing result ≡ true → connection.new ≡ connection.old }
    ensures undigested { writes_nothing result ≡ true → digest.new ≡ digest.old }

    // A command that was accepted before is answered the number that it got then, and nothing is written.
    ensures repeated { (n : ℕ) → decided.decision ≡ Decision.Repeat n
        → (result ≡ Ok (Reply.Accepted n)) × (connection.new ≡ connection.old) × (digest.new ≡ digest.old) }
{
    let _: Option<RowParts> = None;
    envelope.show_values();
    let Decided { seq, decision } = decided;
    match decision {
        Decision::Refused(refusal) => Ok(Reply::Refused(refusal)),
        Decision::Repeat(number) => Ok(Reply::Accepted(number)),
        Decision::Change(changes) => commit_on(connection, seq, changes.as_slice(), digest),
    }
}

/// Writes what a command changes, of which this many were accepted before it, in one transaction.
fn commit_on<S: Alter>(
    connection: &mut Connection<S>,
    seq: u64,
    changes: &[RowChange],
    digest: &mut Digest,
) -> Result<Reply, DeskFault>
    requires rest { (state S.Store connection.old).in_transaction ≡ false }
    requires fits { seq + 1 < 2 ^ 64 }
    ensures committed { HasCommitted seq changes.now (state S.Store connection.old) (state S.Store connection.new)
        result }
    ensures digested { MatchResult result (λ _. digest.new ≡ with_changes digest.old changes.now)
        (λ _. digest.new ≡ digest.old) }
{
    match commit_changes(connection, changes) {
        Ok(()) => {
            digest.add_changes(changes);
            Ok(Reply::Accepted(seq + 1))
        }
        Err(_) => Err(DeskFault::Store),
    }
}
