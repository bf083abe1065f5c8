ghost use Rattle.std.specs.Prelude.{◌≡◌, false, IsTrue, OnOk, OnErr, IsOkUnless};
ghost use Rattle.sqlite.specs.Effect.{Database};
ghost use Rattle.sqlite.specs.State.{HasCleanDisk, Survives, KeepsCommit};
ghost use Rattle.sqlite.specs.Held.{state};
ghost use Rattle.sql_tables.specs.CrashStates.{IsSettled, IsUndone};

use crate::fault::{StoreFault, fault_of};
use sqlite::{Alter, Connection, Transaction};

/// What is done in one transaction.
pub trait TransactionWork {
    // What it makes of a database, where it succeeds.
    ghost makes: { Self → Database → Database → Type 0 };

    /// Does it. Nothing is committed. The one fault is [`StoreFault::Store`].
    fn run<S: Alter>(&self, tx: &mut Transaction<'_, S>) -> Result<(), StoreFault>
        ensures fault { IsOkUnless result StoreFault.Store }
        ensures same_reference { tx.new.conn.ghost_name ≡ tx.old.conn.ghost_name }
        ensures made { HasCleanDisk (state S.Store tx.new.conn.now)
            → OnOk result (makes self.now (state S.Store tx.old.conn.now).now
            (state S.Store tx.new.conn.now).now) }
        ensures inside { HasCleanDisk (state S.Store tx.new.conn.now)
            → IsTrue (state S.Store tx.old.conn.now).is_open
            → IsTrue (state S.Store tx.old.conn.now).in_transaction
            → OnOk result (IsTrue (state S.Store tx.new.conn.now).in_transaction) }
        ensures kept { HasCleanDisk (state S.Store tx.new.conn.now)
            → KeepsCommit (state S.Store tx.old.conn.now) (state S.Store tx.new.conn.now) }
        ensures survives { Survives (state S.Store tx.old.conn.now) (state S.Store tx.new.conn.now)
            (λ _. ⊥) };
}

/// Does the work in one transaction, whose commit is the last call of the store: after `Ok` all of it is done and
/// committed, and after a fault, which is [`StoreFault::Store`], as far as is known, nothing. A stop leaves what was there before or all of it.
pub fn in_one<S: Alter, W: TransactionWork>(
    conn: &mut Connection<S>,
    work: &W,
) -> Result<(), StoreFault>
    requires { conn.old.in_transaction ≡ false }
    ensures fault { IsOkUnless result StoreFault.Store }
    ensures mode { conn.new.in_transaction ≡ false }
    ensures done { HasCleanDisk (state S.Store conn.new) → IsSettled (state S.Store conn.old)
        → OnOk result (IsSettled (state S.Store conn.new)
        × W.makes work.now (state S.Store conn.old).now (state S.Store conn.new).now) }
    ensures undone { HasCleanDisk (state S.Store conn.new) → IsSettled (state S.Store conn.old)
        → OnErr result (IsUndone (W.makes work.now) (state S.Store conn.old) (state S.Store conn.new)) }
    ensures crash { Survives (state S.Store conn.old) (state S.Store conn.new)
        (λ trees. (db : Database) × W.makes work.now (state S.Store conn.old).now db
        × (trees ≡ db.trees)) }
{
    let mut tx = conn.transaction();
    work.run(&mut tx)?;
    match tx.commit() {
        Ok(()) => Ok(()),
        Err(error) => Err(fault_of(error)),
    }
}
