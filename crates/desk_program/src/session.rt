//! The subcommand `run`.
ghost use Rattle.std.specs.Prelude.{◌≡◌, false, IfOk, IfErr, OnErr, MatchResult};
ghost use Rattle.sqlite.specs.Held.{state};
ghost use Rattle.desk_program.specs.Runs.{HasRun, IsRefused, WasHonest};

use crate::adopting::{TaskError, adopt};
use plant_desk_store::Desk;
use plant_text::{RunEnd, run_lines};
use sqlite::{Alter, Connection};
use std::alloc::Global;
use std::io::{Read, Write};

/// A run over the lines of an input that has ended.
#[derive(Drop)]
pub struct Session<S: Alter> {
    /// The desk as the run left it.
    pub desk: Desk<S>,
    /// How the run ended.
    pub end: RunEnd,
}

/// Does `run FILE`: adopts the store, and answers the lines of the input as [`run_lines`] does.
///
/// At a fault of the adoption nothing was read and nothing written.
/// `TaskError` has that fault and gives the connection back.
pub fn run<S: Alter + Drop, R: Read, W: Write>(
    alloc: Global,
    connection: Connection<S>,
    reader: &mut R,
    writer: &mut W,
) -> Result<Session<S>, TaskError<S>>
    requires { (state S.Store connection).in_transaction ≡ false }
    ensures ends { IfOk result (λ session. HasRun (state S.Store connection)
        (state S.Store session.desk.connection) session.desk.is_shut
        (R.remaining reader.old) (R.remaining reader.new)
        (W.contents writer.old) (W.contents writer.new) session.end) }
    ensures honest { MatchResult result
        (λ session. WasHonest (state S.Store connection) (state S.Store session.desk.connection))
        (λ stopped. WasHonest (state S.Store connection) (state S.Store stopped.connection)) }
    ensures refused { IfErr result (λ stopped. IsRefused (state S.Store connection)
        (state S.Store stopped.connection) stopped.fault) }
    ensures unread { OnErr result (R.remaining reader.new ≡ R.remaining reader.old) }
    ensures write_error { OnErr result (W.contents writer.new ≡ W.contents writer.old) }
{
    let mut desk = adopt(alloc, connection)?;
    let end = run_lines(alloc, reader, writer, &mut desk);
    Ok(Session { desk, end })
}
